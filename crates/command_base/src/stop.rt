// Why a job stops before it is done.
ghost use Rattle.std.specs.Prelude.{◌≡◌};
ghost use Rattle.command_base.specs.Stops.{fault_status, stop_status};

use crate::Status;
use outside_calls::FolderFault;

/// Why a job stops before it is done.
#[derive(Clone, Copy, PartialEq, Eq)]
pub enum Stop {
    /// For what its inputs are, or what became of them: the command's own answer, and no fault of the folder.
    Own(Status),
    /// An input was not read.
    Read(FolderFault),
    /// An output was not made, or not written.
    Write(FolderFault),
    /// A line that stands before the last one was not printed, or not whole. Nothing more is printed then.
    Say(FolderFault),
    /// There was no memory for what the job holds, and no fault of the folder was counted.
    NoMemory,
}

/// The status of a folder's fault: `failed` where a call failed.
pub(crate) fn fault_status(failed: Status, fault: FolderFault) -> Status
    ensures { result ≡ fault_status failed fault }
{
    match fault {
        FolderFault::Failed => failed,
        FolderFault::NoMemory => Status::NoMemory,
    }
}

impl Stop {
    /// The status with which a command ends that stops so.
    pub fn status(self) -> Status
        ensures { result ≡ stop_status self }
    {
        match self {
            Stop::Own(answer) => answer,
            Stop::Read(fault) => fault_status(Status::ReadFault, fault),
            Stop::Write(fault) | Stop::Say(fault) => fault_status(Status::WriteFault, fault),
            Stop::NoMemory => Status::NoMemory,
        }
    }
}
