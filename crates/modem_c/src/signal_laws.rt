//! Theorems that join what handles lead to: an encoder's, or a meter's, and a decoder's. The functions do nothing but name the theorems that they
//! rest on: each theorem is a contract. Not for C.
ghost use Rattle.modem_c.specs.SignalLaws.{SentBitsComeBack, SentBitsComeSoon, AllBitsComeBack, MiddleBitsComeBack, SureBitsAreGiven};
ghost use Rattle.modem_c.specs.SignalLaws.{QuarterBitsComeBack, AllQuarterBitsComeBack};

use gateway::signal_laws;

/// What a decoder gives at 9600 bit/s are the bits that went into the encoder: as long as all of the noise is below 2.5 squares of a unit
/// of the map the line isn't lost and at most 126 samples are behind, without noise 24, and then none at its end.
pub fn sent_bits_come_back()
    ensures near { SentBitsComeBack }
    ensures soon { SentBitsComeSoon }
    ensures all { AllBitsComeBack }
{
    signal_laws::sent_bits_come_back();
}

/// From any sample on, by however many quarters the points are turned, a decoder of the line's middle gives the bits behind the first 27 that
/// it hears: as long as all of the noise is below one square of a unit of the map the line isn't lost and at most 116 samples are behind.
pub fn middle_bits_come_back()
    ensures { MiddleBitsComeBack }
{
    signal_laws::middle_bits_come_back();
}

/// Where a meter is sure of bits, a decoder of the samples gives these bits, at most 126 samples behind.
pub fn sure_bits_are_given()
    ensures { SureBitsAreGiven }
{
    signal_laws::sure_bits_are_given();
}

/// At 4800 bit/s the line isn't lost and no sample is behind, where each one is heard nearer than half the way to the next point.
pub fn quarter_bits_come_back()
    ensures near { QuarterBitsComeBack }
    ensures all { AllQuarterBitsComeBack }
{
    signal_laws::quarter_bits_come_back();
}
