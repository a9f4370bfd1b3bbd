//! Theorems of what is printed of a recording. The functions do nothing: each theorem is a contract.
ghost use Rattle.signal_commands.specs.PickingUp.Laws.{SomePiecesAreGiven, PiecesAreGivenOnce, LaterPiecesStandBehind};
ghost use Rattle.signal_commands.specs.PickingUp.Middles.{MiddlesGiveWhatWasSent, MiddlesWithoutNoiseGiveMore, MiddlesAreNeverLost};

/// A recording's samples give one list of pieces.
pub fn samples_give_one_list()
    ensures some { SomePiecesAreGiven }
    ensures once { PiecesAreGivenOnce }
{}

/// The pieces that a recording's first samples give begin those that the whole of it gives: so what was printed before a fault is the
/// beginning of what is printed where there is none.
pub fn later_pieces_stand_behind()
    ensures { LaterPiecesStandBehind }
{}

/// Of a recording that begins in the middle of a line, whatever quarter turn it has, what is heard was sent: with noise of less than a
/// square of a map unit in all, all bits but the 27 first ones and 464 last ones at most, and 116 without noise. Its line isn't lost.
pub fn middles_give_what_was_sent()
    ensures sent { MiddlesGiveWhatWasSent }
    ensures more { MiddlesWithoutNoiseGiveMore }
    ensures never_lost { MiddlesAreNeverLost }
{}
