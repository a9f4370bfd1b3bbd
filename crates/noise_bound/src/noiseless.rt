//! Theorems of samples that are exactly the points of a code sequence of the eight-state code. Each function's contract is
//! a theorem.
ghost use Rattle.noise_bound.specs.NoiselessLaws.{V32HasLaws, OnlySentIsLeast, ReleasesSent, FewUnreleased, NeverLost, DecodesNoiseless};

use exact_decoder::laws::codes_have_laws;
use trellis_tables::V32Code;

/// The eight-state code from one state has the laws of a code.
pub fn eight_state_code_has_the_laws()
    ensures { V32HasLaws }
{
    codes_have_laws::<8, 32, V32Code>();
}

/// The sent labels are the only sequence of least cost. So what a decoder has released and what it gives at its end
/// are together the sent labels.
pub fn only_the_sent_labels_are_least()
    ensures { OnlySentIsLeast }
{}

/// What is released after any sample is a prefix of the sent labels.
pub fn released_labels_were_sent()
    ensures { ReleasesSent }
{}

/// At most 24 labels are unreleased after any sample, so a line with at least that depth is never lost.
pub fn few_labels_are_unreleased()
    ensures few { FewUnreleased }
    ensures never_lost { NeverLost }
{}

/// A decoder of depth 24 or more is not lost by such samples, what it released is a prefix of the sent labels, and at
/// most 24 of them are still to come.
pub fn decoders_follow_a_line_without_noise()
    ensures { DecodesNoiseless }
{}
