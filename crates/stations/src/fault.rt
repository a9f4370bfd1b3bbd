// What a folder's fault is to a turn.
ghost use Rattle.std.specs.Prelude.{◌≡◌};
ghost use Rattle.stations.specs.Faults.{fault_of};

use outside_calls::FolderFault;

/// Why there is no further turn where the folder doesn't do a call: `failed` where it failed, and `no_memory` where it had none.
pub fn folder_fault<T: Copy>(failed: T, no_memory: T, fault: FolderFault) -> T
    ensures { result ≡ fault_of failed no_memory fault }
{
    match fault {
        FolderFault::Failed => failed,
        FolderFault::NoMemory => no_memory,
    }
}
