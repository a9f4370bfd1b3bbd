//! Theorems over the definitions alone. The functions do nothing: each theorem is a contract.
ghost use Rattle.sample_line.specs.Laws.{RecordedOnce, RecordingsGrow, GivenOnce, GivenStays, ReceivedOnce, OneOutcome, AllFits};

/// What is recorded of bits is one list, and a prefix of what is recorded once more bits follow.
pub fn recordings_grow()
    ensures once { RecordedOnce }
    ensures grow { RecordingsGrow }
{}

/// The bits that samples give are one list, and they stay, whatever samples follow.
pub fn given_bits_stay()
    ensures once { GivenOnce }
    ensures stay { GivenStays }
{}

/// In a slot one list of octets and one of patterns are received, and they have one outcome.
pub fn one_outcome()
    ensures received { ReceivedOnce }
    ensures outcome { OneOutcome }
{}

/// What can be sent fits a slot of `SLOT` symbols, whatever part of a flag is unfinished before it.
pub fn all_fits()
    ensures { AllFits }
{}
