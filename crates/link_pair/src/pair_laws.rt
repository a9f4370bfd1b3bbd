//! What holds of all pairs of links. The functions do nothing but name the theorems that they rest on: each theorem is a contract.
ghost use Rattle.link_pair.specs.Pairs.Laws.{FaintPairsAreIsolated, UndisplacedPairsAreIsolated, PairsLeavePrefixes, DonePairsAreWhole};
ghost use Rattle.link_pair.specs.Pairs.Laws.{PairedLinksRun, PairedLinksWereStarved, PairsHaveFewRounds, OnePairResult, EachPairEnds};
ghost use Rattle.link_pair.specs.Pairs.Laws.{FirstSlotsAreDue, SecondSlotsAreDue};
ghost use Rattle.link_pair.specs.Pairs.Laws.{UnstarvedPairsAreDone, QuietPairsAreDone};

use detection::laws::sights_stay;
use line_ends::laws::{
    heard_turns_are_made, lost_links_were_starved, octets_are_sendable,
    undisplaced_runs_have_faint_noise, undisturbed_runs_complete,
};
use line_run::direction::{
    each_list_of_fours_is_recorded, faint_lines_are_never_lost, heard_is_sent,
    what_is_received_of_faint_lines_is_sent,
};
use line_run::laws::{
    line_runs_end_soon, one_line_run, runs_leave_prefixes, samples_are_carried, scripts_make_links,
    slots_have_room,
};
use link_run::laws::{each_turn_is_made, numbers_have_the_agreed_check, one_run, prefixes};
use sample_line::laws::{given_bits_stay, one_outcome, recordings_grow};

/// Where no symbol is displaced, or faintly, each link of a pair runs as it does alone: it ends as it does there, and the same is left of it,
/// whatever the other link's users bring.
pub fn pairs_are_isolated()
    ensures faint { FaintPairsAreIsolated }
    ensures undisplaced { UndisplacedPairsAreIsolated }
{
    scripts_make_links();
    slots_have_room();
    samples_are_carried();
    octets_are_sendable();
    numbers_have_the_agreed_check();
    each_list_of_fours_is_recorded();
    faint_lines_are_never_lost();
    what_is_received_of_faint_lines_is_sent();
    heard_is_sent();
    one_outcome();
    undisplaced_runs_have_faint_noise();
}

/// Each link of a pair is a run over a line, so what holds of such runs holds of it. One that an end gave up was starved.
pub fn paired_links_run()
    ensures run { PairedLinksRun }
    ensures starved { PairedLinksWereStarved }
{
    samples_are_carried();
    lost_links_were_starved();
}

/// However a pair ends, what each user was given begins the file of the user at its link's other end. Done means all four whole.
pub fn pairs_leave_prefixes()
    ensures prefixes { PairsLeavePrefixes }
    ensures whole { DonePairsAreWhole }
{
    scripts_make_links();
    samples_are_carried();
    prefixes();
    runs_leave_prefixes();
}

/// A pair ends soon: while a link goes on there were as many rounds as it has turns, which are few.
pub fn pairs_have_few_rounds()
    ensures { PairsHaveFewRounds }
{
    line_runs_end_soon();
}

/// A script and four files have one pair at most: how it ends, and what it leaves of each link.
pub fn one_pair_result()
    ensures { OnePairResult }
{
    scripts_make_links();
    one_run();
    one_line_run();
}

/// Each script within its limits and each four files of octets within theirs have a pair that ends.
pub fn pairs_end()
    ensures { EachPairEnds }
{
    scripts_make_links();
    slots_have_room();
    samples_are_carried();
    octets_are_sendable();
    numbers_have_the_agreed_check();
    each_list_of_fours_is_recorded();
    faint_lines_are_never_lost();
    what_is_received_of_faint_lines_is_sent();
    heard_is_sent();
    one_outcome();
    recordings_grow();
    given_bits_stay();
    sights_stay();
    heard_turns_are_made();
    each_turn_is_made();
    pairs_have_few_rounds();
}

/// Among the slots of both links in the order in which they are sent, the one that is due as a link's turn begins is that link's.
pub fn slots_are_due()
    ensures first { FirstSlotsAreDue }
    ensures second { SecondSlotsAreDue }
{}

/// A pair that the line doesn't end is done unless a link was starved; and each pair of a quiet script is done.
pub fn pairs_complete()
    ensures unstarved { UnstarvedPairsAreDone }
    ensures quiet { QuietPairsAreDone }
{
    lost_links_were_starved();
    undisturbed_runs_complete();
    pairs_are_isolated();
}
