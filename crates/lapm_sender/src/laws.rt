//! Theorems over the definitions alone. The functions do nothing: each theorem is a contract.
ghost use Rattle.lapm_sender.specs.Meant.{MeansExactly};

/// The number that a received one stands for is the one in the range that agrees with it modulo 128.
pub fn means_exactly()
    ensures { MeansExactly }
{}
