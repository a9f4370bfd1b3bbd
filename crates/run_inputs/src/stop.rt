// Why a job stops whose run ends with less than both files.
ghost use Rattle.std.specs.Prelude.{◌≡◌};
ghost use Rattle.run_inputs.specs.Answers.{fault_stop};

use command_base::{Status, Stop};
use line_run::RunFault;
use outside_calls::FolderFault;

/// Why a job stops whose turns end by this fault.
pub fn stop_of(fault: RunFault) -> Stop
    ensures { result ≡ fault_stop fault }
{
    match fault {
        RunFault::ReadFault => Stop::Read(FolderFault::Failed),
        RunFault::WriteFault => Stop::Write(FolderFault::Failed),
        RunFault::LineLost { role, symbol } => Stop::Own(Status::LineLost { role, symbol }),
        RunFault::ChanceMatch { role, turn } => Stop::Own(Status::ChanceMatch { role, turn }),
        RunFault::NotDetected { turn } => Stop::Own(Status::NotDetected { turn }),
        RunFault::LinkLost {
            role,
            segment,
            turn,
        } => Stop::Own(Status::LinkLost {
            role,
            segment,
            turn,
        }),
        RunFault::NoMemory => Stop::Write(FolderFault::NoMemory),
    }
}
