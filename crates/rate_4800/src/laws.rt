//! Theorems over all lists of samples, labels and bits. The functions do nothing: each theorem is a contract.
ghost use Rattle.rate_4800.specs.Laws.{AllAreReleased, NearOnesAreRead, ComesBack};

/// Each label is released with its own sample.
pub fn all_are_released()
    ensures { AllAreReleased }
{}

/// A sample near the point that was sent is read as it was sent.
pub fn near_ones_are_read()
    ensures { NearOnesAreRead }
{}

/// What was sent without noise comes back.
pub fn bits_come_back()
    ensures { ComesBack }
{}
