//! Theorems over the definitions alone. The functions do nothing: each theorem is a contract.
ghost use Rattle.lapm_receiver.specs.Incoming.{KeepsTaken};

/// What was taken stays taken.
pub fn keeps_taken()
    ensures { KeepsTaken }
{}
