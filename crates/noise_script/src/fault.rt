// Why a script is refused.
ghost use Rattle.std.specs.Prelude.{◌≡◌};

use crate::Cause;
use shared_terms::NoMemory;

/// Why a text is read as no script.
#[derive(Clone, Copy, Debug, PartialEq, Eq)]
pub enum ScriptFault {
    /// The first faulty line, counted from 1, and the first thing that is wrong with it.
    Line { line: u32, cause: Cause },
    /// Memory was not found for its lines.
    NoMemory,
}

impl From<NoMemory> for ScriptFault {
    ghost use Rattle.noise_script.specs.declared.fault.ScriptFault.TheVariants as faults;

    ghost from_gives = { λ _ fault. fault ≡ faults.NoMemory };

    fn from(_error: NoMemory) -> ScriptFault {
        ScriptFault::NoMemory
    }
}
