//! What holds of each run over a line that carries what is sent, whatever it loses. The functions do nothing: each theorem is a contract.
ghost use Rattle.turn_bound.specs.Bound.{EndsSoon, EndsSoonByFiles, EndsSoonByOctets};
ghost use Rattle.turn_bound.specs.Offered.{OffersWithin};
ghost use Rattle.turn_bound.specs.Limits.{NoRunIsLong};
ghost use Rattle.turn_bound.specs.Together.{StandTogether};
ghost use Rattle.turn_bound.specs.Spent.{SpendsOnTime};
ghost use Rattle.turn_bound.specs.Due.{AnswersAtOnce};
ghost use Rattle.turn_bound.specs.Advance.{AdvancesSoon};

/// A run has at most so many turns: two whole sets of tries and two periods for each segment, each break, each phase, and twice
/// that for each turn in which a user is busy. Within the limits of scripts and files these are fewer than the turns that an end
/// can count.
pub fn runs_end_soon()
    ensures soon { EndsSoon }
    ensures by_files { EndsSoonByFiles }
    ensures by_octets { EndsSoonByOctets }
    ensures within_limits { NoRunIsLong }
{}

/// No more segments are offered than a file has, at the agreed size.
pub fn offers_are_within_the_file()
    ensures { OffersWithin }
{}

/// An originator is Connected only with an answerer that is, and awaits a poll until that one heard a numbered frame.
pub fn ends_stand_together()
    ensures { StandTogether }
{}

/// An end breaks for lack of answers alone, a whole set of tries after a clock of its began, and in no other turn.
pub fn tries_are_spent_on_time()
    ensures { SpendsOnTime }
{}

/// Between turns no answer is due, and no F reply until the end is told to release.
pub fn ends_answer_at_once()
    ensures { AnswersAtOnce }
{}

/// Where no user is busy, the front of an end that isn't whole advances within the turns of one segment, from where the end may send
/// or from its last advance, or the run ends.
pub fn fronts_advance_soon()
    ensures { AdvancesSoon }
{}
