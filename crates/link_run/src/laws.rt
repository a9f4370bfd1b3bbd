//! What holds of all runs. The functions do nothing but name the theorems that they rest on: each theorem is a contract.
ghost use Rattle.link_run.specs.Alone.{OneLoneRun, LoneHearingsDeliver, LoneSpeakingTakesNothing, EachLoneTurnIsMade, LoneRunsByWhatIsReadOn, LoneRunsKeepTheirSetup};
ghost use Rattle.link_run.specs.Counts.{CountsByNumber, SentBelowHigh};
ghost use Rattle.link_run.specs.Laws.{RunsArePlays, HearingsArePlays, TakesPrefixes, HearsPrefixes, DoneIsWhole, HearingsAreWell, BrokenForWant};
ghost use Rattle.link_run.specs.Laws.{OneRun, OneOutcome, HearingsDeliver, SpeakingTakesNothing, GivesAllBreaks, HearingsGiveAllBreaks};
ghost use Rattle.link_run.specs.Laws.{TakesWhatPassed, HearsWhatPassed, SendsShort, EachEndIsNamed, EachTurnIsMade, OffersUntilNoneIsWanted};
ghost use Rattle.link_run.specs.Overheard.{OpensByFrames, SegmentsPassLater, AgreesByXid, SendsAgreedCheck, HearsAgreedCheck};
ghost use Rattle.link_run.specs.Reading.{BeginsUnoffered, HearingStaysOffered, SpeakingStaysOffered, OffersWhatIsRead, SegmentsAreTold, OwnSegmentsStay, RunsByWhatWasRead, RunsByWhatIsReadOn};
ghost use Rattle.link_run.specs.Overheard.{JudgesByItsCheck, JudgesOnceHeard, ReleasesLast, EarlyBreaksAreIgnored};
ghost use Rattle.link_run.specs.Listened.{HearsByLine, RunsByLine};

use lapm_receiver::laws::keeps_taken;
use link_account::laws::{
    acknowledgements, ends_receive_as_agreed, frames_on_the_line, next_numbers,
    numbers_on_the_line, plays,
};
use xid_params::laws::{reads_allowed, reads_written};

/// Each run over a line, as it goes on and once both ends have heard, is a play of the link.
pub fn runs_are_plays()
    ensures runs { RunsArePlays }
    ensures hearings { HearingsArePlays }
{
    reads_allowed();
    keeps_taken();
}

/// Whatever is lost, what each end took begins the other's file.
pub fn prefixes()
    ensures takes { TakesPrefixes }
    ensures hears { HearsPrefixes }
{
    reads_allowed();
    keeps_taken();
    plays();
    acknowledgements();
}

/// Done means whole: both files have crossed, and each break that was taken at an end was given at the other.
pub fn done_is_whole()
    ensures { DoneIsWhole }
{
    reads_allowed();
    keeps_taken();
    plays();
    acknowledgements();
}

/// No end breaks as it hears, and as it speaks it breaks for lack of answers alone: neither meets a bad acknowledgement, a reset or a
/// refusal.
pub fn ends_break_for_want_alone()
    ensures hearing { HearingsAreWell }
    ensures speaking { BrokenForWant }
{
    reads_allowed();
    keeps_taken();
    plays();
}

/// What is heard determines a run, and what becomes of each turn.
pub fn one_run()
    ensures run { OneRun }
    ensures outcome { OneOutcome }
{}

/// What is handed over in each turn is what came in it: segments go behind all that were taken, and every break is given once.
pub fn turns_deliver_what_came()
    ensures hearing { HearingsDeliver }
    ensures speaking { SpeakingTakesNothing }
    ensures breaks { GivesAllBreaks }
    ensures heard_breaks { HearingsGiveAllBreaks }
{
    reads_allowed();
    keeps_taken();
}

/// The segments that passed, by the numbers that were meant and by nothing else, give what the accounts took.
pub fn what_passed_is_taken()
    ensures takes { TakesWhatPassed }
    ensures hears { HearsWhatPassed }
{
    reads_allowed();
    keeps_taken();
    plays();
    acknowledgements();
    frames_on_the_line();
}

/// What an end sends has no more information than it offers, or than an offer has.
pub fn frames_are_short()
    ensures { SendsShort }
{
    reads_allowed();
    reads_written();
    keeps_taken();
}

/// Whatever a line makes of what was sent, there is a next turn, and an end that breaks has spent its tries, or is the originator and saw no
/// pattern.
pub fn each_turn_is_made()
    ensures made { EachTurnIsMade }
    ensures named { EachEndIsNamed }
{
    reads_allowed();
    keeps_taken();
    ends_break_for_want_alone();
}

/// What arrives at one end alone determines its run, and whatever arrives, there is a next turn.
pub fn one_lone_run()
    ensures run { OneLoneRun }
    ensures made { EachLoneTurnIsMade }
{}

/// What one end alone hands over in each turn is what came in it, behind all that it had taken.
pub fn lone_turns_deliver_what_came()
    ensures hearing { LoneHearingsDeliver }
    ensures speaking { LoneSpeakingTakesNothing }
{
    reads_allowed();
    keeps_taken();
}

/// The user's file of one end alone counts as far as it was read: a run is one of any other file that is the same up to there. The end keeps
/// its setup.
pub fn the_file_of_one_counts_as_far_as_it_was_read()
    ensures file { LoneRunsByWhatIsReadOn }
    ensures setup { LoneRunsKeepTheirSetup }
{
    reads_allowed();
    keeps_taken();
}

/// Pieces are offered until none is wanted: a loop that offers the next one while one is wanted comes to the same.
pub fn pieces_are_offered_until_none_is_wanted()
    ensures { OffersUntilNoneIsWanted }
{}

/// The frames that passed to an end tell how far it is: a UA or a SABME that it is Connected, an XID frame that its terms are agreed, once
/// and for all. No I frame passes to it before.
pub fn frames_tell_how_far_ends_are()
    ensures opens { OpensByFrames }
    ensures segments { SegmentsPassLater }
    ensures agrees { AgreesByXid }
{
    reads_allowed();
    reads_written();
    keeps_taken();
}

/// Each frame with numbers is sent with the check that both ends agreed on, and its hearer has that check when it arrives.
pub fn numbers_have_the_agreed_check()
    ensures sends { SendsAgreedCheck }
    ensures hears { HearsAgreedCheck }
    ensures judges { JudgesByItsCheck }
    ensures heard { JudgesOnceHeard }
{
    reads_allowed();
    reads_written();
    keeps_taken();
}

/// Once the originator was told to release, nothing new passes to either end, and nothing more is taken or given.
pub fn releases_last()
    ensures { ReleasesLast }
{
    reads_allowed();
    reads_written();
    keeps_taken();
    plays();
    acknowledgements();
    frames_on_the_line();
    numbers_on_the_line();
}

/// One who hears the line, and knows what both ends offer, knows by the frames that pass by which check an end judges, which segments it has
/// taken, and which breaks its user is given.
pub fn ends_are_known_by_the_line()
    ensures hearing { HearsByLine }
    ensures runs { RunsByLine }
{
    reads_allowed();
    reads_written();
    keeps_taken();
    plays();
    acknowledgements();
    frames_on_the_line();
    numbers_on_the_line();
    ends_receive_as_agreed();
}

/// A break's word that passes before its hearer is Connected is ignored: nothing of the end changes.
pub fn early_breaks_are_ignored()
    ensures { EarlyBreaksAreIgnored }
{
    reads_allowed();
    reads_written();
    keeps_taken();
}

/// What is offered of a user's file stays offered, as the end hears and speaks. A segment that is wanted may be any: the file is then known
/// to have it in its place.
pub fn segments_are_offered_as_they_are_read()
    ensures begins { BeginsUnoffered }
    ensures heard { HearingStaysOffered }
    ensures spoken { SpeakingStaysOffered }
    ensures next { OffersWhatIsRead }
    ensures told { SegmentsAreTold }
    ensures own { OwnSegmentsStay }
{
    reads_allowed();
    keeps_taken();
}

/// The users' files count as far as they were read: a run is one of any two files that are the same up to there, be that known after its
/// turns or in the middle of the next.
pub fn files_count_as_far_as_they_were_read()
    ensures read { RunsByWhatWasRead }
    ensures next { RunsByWhatIsReadOn }
{
    reads_allowed();
    keeps_taken();
}

/// Who counts the segments that an end sends by N(S) alone comes to what the meant numbers give: one with the next N(S) is the next one, and
/// any other was sent before. Those that were sent are all below a number.
pub fn segments_are_counted_by_their_numbers()
    ensures turn { CountsByNumber }
    ensures below { SentBelowHigh }
{
    reads_allowed();
    keeps_taken();
    next_numbers();
}
