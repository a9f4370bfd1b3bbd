//! Which runs of a script are done. The functions do nothing but name the theorems that they rest on: each theorem is a contract.
ghost use Rattle.line_ends.specs.Causes.{LostLinksWereStarved, EndsHaveCauses, FewLossesKeepLinks, HeardTurnsAreMade};
ghost use Rattle.line_ends.specs.Completes.{CompletesUnstarved, CompletesWithFewLosses, DisplacesNoneIsFaint, FaintGoOn, LosesWhatIsNamed};
ghost use Rattle.line_ends.specs.EachEnds.{EachSlotBecomes, EachTurnIsDecided, EachRunEnds, QuietRunsDeliver, UndisturbedRunsDeliver};
ghost use Rattle.line_ends.specs.Completes.{OctetsAreSendable, CompletesWithFewNamed, CompletesQuiet, CompletesUndisturbed};

use break_signals::laws::is_spelled_back;
use detection::laws::sights_stay;
use line_run::direction::{
    each_list_of_fours_is_recorded, faint_lines_are_never_lost, heard_is_sent,
    scripts_displace_by_their_lines_alone, what_is_received_of_faint_lines_is_sent,
};
pub use line_run::laws::line_runs_end_soon;
use line_run::laws::{
    runs_leave_prefixes, samples_are_carried, scripts_keep_time, scripts_make_links,
    slots_have_room,
};
use link_run::laws::{
    done_is_whole, each_turn_is_made, frames_are_short, numbers_have_the_agreed_check,
    segments_are_offered_as_they_are_read, turns_deliver_what_came,
};
use sample_line::laws::{given_bits_stay, one_outcome, recordings_grow};
use turn_losses::laws::{
    ends_give_up_for_losses, ends_give_up_starved, few_losses_starve_no_run,
    patterns_are_missed_for_losses,
};

/// A run over the line of samples that ends by a link that is lost or not detected was starved. Where no break waits at the end that
/// gives up, something was lost in each of its latest periods, as many as the script has tries, and one more where it isn't detected. That
/// one gives up as these periods are over. In a run that is done each break that an end took was given to the other's user.
pub fn lost_links_were_starved()
    ensures starved { LostLinksWereStarved }
    ensures causes { EndsHaveCauses }
{
    scripts_make_links();
    scripts_keep_time();
    samples_are_carried();
    done_is_whole();
    turns_deliver_what_came();
    ends_give_up_starved();
    ends_give_up_for_losses();
    patterns_are_missed_for_losses();
}

/// Where fewer slots were lost than one for each two tries, no end gave the link up: the run ends by Done, or the line ends it.
pub fn few_losses_keep_links()
    ensures { FewLossesKeepLinks }
{
    scripts_keep_time();
    lost_links_were_starved();
    few_losses_starve_no_run();
}

/// What is heard of the slots that arrive makes a next turn, where none is a chance match: it goes on, is done, or an end gives up.
pub fn heard_turns_are_made()
    ensures { HeardTurnsAreMade }
{
    scripts_make_links();
    samples_are_carried();
    each_turn_is_made();
}

/// A run that isn't starved is done, unless the line ends it; and so is one in which fewer slots are lost than one for each two tries.
pub fn unstarved_runs_complete()
    ensures unstarved { CompletesUnstarved }
    ensures few_losses { CompletesWithFewLosses }
{
    lost_links_were_starved();
    few_losses_keep_links();
}

/// A script without lines that hit or displace has no noise, which is faint.
pub fn undisplaced_runs_have_faint_noise()
    ensures { DisplacesNoneIsFaint }
{
    scripts_displace_by_their_lines_alone();
    faint_lines_are_never_lost();
}

/// The line doesn't end a run whose noise is faint, and loses no more slots of it than the script's lose lines name.
pub fn faint_runs_go_on()
    ensures goes_on { FaintGoOn }
    ensures loses { LosesWhatIsNamed }
{
    scripts_make_links();
    slots_have_room();
    samples_are_carried();
    numbers_have_the_agreed_check();
    faint_lines_are_never_lost();
    what_is_received_of_faint_lines_is_sent();
    heard_is_sent();
    one_outcome();
}

/// Ends whose users hand over octets send nothing but what can be sent.
pub fn octets_are_sendable()
    ensures { OctetsAreSendable }
{
    scripts_make_links();
    samples_are_carried();
    frames_are_short();
    is_spelled_back();
    segments_are_offered_as_they_are_read();
}

/// Where a script's noise is faint and its lose lines name fewer slots than one for each two tries, each run of two files of octets is
/// done; so it is where a script is quiet, and where it has no line that loses, hits or displaces.
pub fn undisturbed_runs_complete()
    ensures few_named { CompletesWithFewNamed }
    ensures quiet { CompletesQuiet }
    ensures undisturbed { CompletesUndisturbed }
{
    unstarved_runs_complete();
    faint_runs_go_on();
    undisplaced_runs_have_faint_noise();
    octets_are_sendable();
}

/// In each turn the line is lost, or a slot is a chance match, or something is heard of both: the line ends the run, or a turn is made.
pub fn turns_are_decided()
    ensures slot { EachSlotBecomes }
    ensures turn { EachTurnIsDecided }
{
    scripts_make_links();
    slots_have_room();
    each_list_of_fours_is_recorded();
    recordings_grow();
    given_bits_stay();
    sights_stay();
    octets_are_sendable();
    heard_turns_are_made();
}

/// Each script within its limits and each two files of octets within theirs have a run that ends.
pub fn runs_end()
    ensures { EachRunEnds }
{
    scripts_make_links();
    turns_are_decided();
    each_turn_is_made();
    line_runs_end_soon();
}

/// A quiet script delivers both files, and so does one without lines that lose, hit or displace: it has a run that is done, and each user
/// has the other's file.
pub fn undisturbed_runs_deliver()
    ensures quiet { QuietRunsDeliver }
    ensures undisturbed { UndisturbedRunsDeliver }
{
    scripts_make_links();
    runs_leave_prefixes();
    undisplaced_runs_have_faint_noise();
    undisturbed_runs_complete();
    runs_end();
}
