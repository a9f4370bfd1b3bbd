//! Theorems of a recording with little noise, and of the same after a quarter turn, as far as both are released. Each function's contract is a
//! law. Those of samples that are near what was sent are in [`crate::noisy`].
ghost use Rattle.noise_bound.specs.Laws.{SureIsNear, SureIsDecoded, NearTurns, QuadsAreAlike, QuadsAreAlikeOfAny, FewBitsDiffer, FewBitsDifferOfAny, OnePickedUpBegins, OneListOfPiecesBegins, ReadersPiecesBegin};

/// Where octets cost so little against samples that a [`crate::Margin`] is sure, the samples are near what was sent: the line isn't lost, and
/// what is released was sent.
pub fn sure_recordings_are_decoded()
    ensures near { SureIsNear }
    ensures decoded { SureIsDecoded }
{}

/// Turned samples are as near to the points of the turned labels.
pub fn turned_samples_are_as_near()
    ensures { NearTurns }
{}

/// From one start, with noise below 2.5 squares of a map unit, and from any state, with noise below one: both recordings carry the same quads
/// but for the first.
pub fn quads_behind_the_first_are_the_same()
    ensures one_start { QuadsAreAlike }
    ensures any_start { QuadsAreAlikeOfAny }
{}

/// Behind the descramblers at most six bits differ then: those that the first two bits of the line go into.
pub fn at_most_six_bits_differ()
    ensures one_start { FewBitsDiffer }
    ensures any_start { FewBitsDifferOfAny }
{}

/// From any state, with noise below one square of a map unit: of the bits that are picked up of both recordings one list begins the
/// other, and so do the pieces of these bits.
pub fn one_list_begins_the_other()
    ensures bits { OnePickedUpBegins }
    ensures pieces { OneListOfPiecesBegins }
{}

/// Two readers find in both recordings pieces of which one list begins the other.
pub fn readers_pick_up_the_same_pieces()
    ensures { ReadersPiecesBegin }
{}
