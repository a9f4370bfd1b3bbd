//! What holds of each run over a line that carries what is sent, whatever it loses. The functions do nothing but name the theorems that
//! they rest on: each theorem is a contract.
ghost use Rattle.turn_losses.specs.Polls.{PollsKeepApart, RepliesAtOnce, AnswersMatchPolls};
ghost use Rattle.turn_losses.specs.Losses.{OriginatorWantsAnswers, OriginatorIsStarved, AnswererWantsAnswers, OriginatorWantsPattern, UndetectedIsStarved, UndetectedOnTime};
ghost use Rattle.turn_losses.specs.Losses.{StarvedLosesMany, LosslessIsFed};
ghost use Rattle.turn_losses.specs.Tries.{OriginatorWantsFrame, AnswererWantsAnswer, GivesUpForLosses, GivesUpUnbroken};
ghost use Rattle.turn_losses.specs.Breaks.{GivesUpStarved};

use link_account::laws::{acknowledgements, plays};
use link_run::laws::{each_turn_is_made, frames_tell_how_far_ends_are, runs_are_plays};
use turn_bound::laws::{ends_stand_together, tries_are_spent_on_time};
use xid_params::laws::reads_written;

/// The polls of an end go at least a period less one turn apart. A poll is answered in the turn in which it is heard, and its
/// answer finds it awaited.
pub fn polls_are_answered_at_once()
    ensures apart { PollsKeepApart }
    ensures replies { RepliesAtOnce }
    ensures awaited { AnswersMatchPolls }
{}

/// A Connected originator that waits for no break's answer gives up only where something was lost in each of the latest periods, as
/// many as it has tries: so the run was starved.
pub fn connected_originators_give_up_for_losses()
    ensures each_period { OriginatorWantsAnswers }
    ensures starved { OriginatorIsStarved }
{
    plays();
    acknowledgements();
    runs_are_plays();
    frames_tell_how_far_ends_are();
    ends_stand_together();
}

/// A Connected answerer that waits for no break's answer, while the originator isn't told to release, gives up only so too.
pub fn connected_answerers_give_up_for_losses()
    ensures { AnswererWantsAnswers }
{
    plays();
    acknowledgements();
    runs_are_plays();
    frames_tell_how_far_ends_are();
}

/// An originator gives up for lack of a pattern only where something was lost in each of the latest periods, one more than it has
/// tries: so the run was starved. It does so in the turn behind these periods, and none of the answerer's patterns had passed.
pub fn patterns_are_missed_for_losses()
    ensures on_time { UndetectedOnTime }
    ensures each_period { OriginatorWantsPattern }
    ensures starved { UndetectedIsStarved }
{
    tries_are_spent_on_time();
}

/// A starved run lost at least a slot for each two tries: where fewer are lost, or none, no run is starved.
pub fn few_losses_starve_no_run()
    ensures many { StarvedLosesMany }
    ensures none { LosslessIsFed }
{}

/// An originator gives up its XID, its SABME or its DISC only where something was lost in each of the latest periods, one more than it
/// has tries: so the run was starved.
pub fn originators_give_up_frames_for_losses()
    ensures { OriginatorWantsFrame }
{
    reads_written();
}

/// An answerer that waits for no break's answer gives up only where something was lost in each of the latest periods, as many as it
/// has tries, also while the originator releases: so the run was starved.
pub fn answerers_give_up_for_losses()
    ensures { AnswererWantsAnswer }
{
    reads_written();
    plays();
    acknowledgements();
    runs_are_plays();
    frames_tell_how_far_ends_are();
    connected_answerers_give_up_for_losses();
}

/// So where no break waits at an end that gives up, whatever it is, something was lost in each of the latest periods: as many as it has
/// tries, and one more where the end isn't Connected. The run was starved. So it is with each end whose user asks for no break.
pub fn ends_give_up_for_losses()
    ensures waiting_for_none { GivesUpForLosses }
    ensures asked_for_none { GivesUpUnbroken }
{
    each_turn_is_made();
    connected_originators_give_up_for_losses();
    patterns_are_missed_for_losses();
    originators_give_up_frames_for_losses();
    answerers_give_up_for_losses();
}

/// Whatever an end gives up for, also while a break waits, the run was starved: something was lost in each of the latest spans but one
/// at most. A period is let off in which an answerer's break waits and the originator becomes Connected.
pub fn ends_give_up_starved()
    ensures { GivesUpStarved }
{
    plays();
    acknowledgements();
    runs_are_plays();
    frames_tell_how_far_ends_are();
    ends_stand_together();
    reads_written();
    ends_give_up_for_losses();
}
