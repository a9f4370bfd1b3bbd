//! Theorems that join an encoder and a decoder. The functions do nothing but name the theorems that they rest on: each theorem is a contract.
ghost use Rattle.gateway.specs.SignalLaws.{SentBitsComeBack, SentBitsComeSoon, AllBitsComeBack, MiddleBitsComeBack, SureBitsAreGiven};
ghost use Rattle.gateway.specs.SignalLaws.{QuarterBitsComeBack, AllQuarterBitsComeBack};

use line_coding::laws::{bits_in_the_middle_are_those_sent, readers_pick_up};
use noise_bound::laws::sure_recordings_are_decoded;
use noise_bound::noiseless::{
    decoders_follow_a_line_without_noise, only_the_sent_labels_are_least,
};
use noise_bound::noisy::{decoders_follow_a_line, decoders_follow_a_line_from_any_start};
use rate_4800::laws::{all_are_released, near_ones_are_read};

/// What a decoder gives at 9600 bit/s are the bits that went into the encoder: as long as all of the noise is below 2.5 squares of a unit
/// of the map the line isn't lost and at most 126 samples are behind, without noise 24, and then none at its end.
pub fn sent_bits_come_back()
    ensures near { SentBitsComeBack }
    ensures soon { SentBitsComeSoon }
    ensures all { AllBitsComeBack }
{
    decoders_follow_a_line();
    decoders_follow_a_line_without_noise();
    only_the_sent_labels_are_least();
}

/// From any sample on, by however many quarters the points are turned, a decoder of the line's middle gives the bits behind the first 27 that
/// it hears: as long as all of the noise is below one square of a unit of the map the line isn't lost and at most 116 samples are behind.
pub fn middle_bits_come_back()
    ensures { MiddleBitsComeBack }
{
    bits_in_the_middle_are_those_sent();
    decoders_follow_a_line_from_any_start();
    readers_pick_up();
}

/// Where a meter is sure of bits, a decoder of the samples gives these bits, at most 126 samples behind.
pub fn sure_bits_are_given()
    ensures { SureBitsAreGiven }
{
    decoders_follow_a_line();
    sure_recordings_are_decoded();
}

/// At 4800 bit/s the line isn't lost and no sample is behind, where each one is heard nearer than half the way to the next point.
pub fn quarter_bits_come_back()
    ensures near { QuarterBitsComeBack }
    ensures all { AllQuarterBitsComeBack }
{
    all_are_released();
    near_ones_are_read();
}
