//! The limits of a run as numbers. The function does nothing: what it says is its contract.
ghost use Rattle.std.specs.Prelude.{◌≡◌};
ghost use Rattle.run_inputs.specs.declared.limits.TheConstants.{LIMITS};

/// A script has at most 65,536 octets, and each file that is sent at most 16,777,216.
pub fn limits_of_inputs()
    ensures script { LIMITS.script ≡ 65536 }
    ensures file { LIMITS.file ≡ 16777216 }
{}
