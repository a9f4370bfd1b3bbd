// A folder as a program sees it. What it holds may be known or not; its counts of faults are always known.
ghost use Rattle.std.specs.Prelude.{◌⊎◌, ◌≤◌, length, IfOk, OnOk, OnErr, IsErrOf};
ghost use Rattle.outside_calls.specs.Folder.{FolderState, OnlyReads, OnlyWrites, OnlySays, KeepsName, HasCause, FaultsStand, CountsStand, ReadsFront, TellsOctets, Appended, PartlyAppended, Created, Said, PartlySaid, IsFaultOf};

use std::io::{self, ErrorKind};
use thiserror::Error;

/// Why a folder's call did nothing, or not all.
#[derive(Clone, Copy, Debug, PartialEq, Eq, Error)]
pub enum FolderFault {
    /// The folder failed.
    #[error("the folder failed")]
    Failed,
    /// The folder found no memory.
    #[error("the folder found no memory")]
    NoMemory,
}

impl From<io::Error> for FolderFault {
    ghost from_gives = { IsFaultOf };

    fn from(error: io::Error) -> FolderFault {
        match error.kind() {
            ErrorKind::OutOfMemory => FolderFault::NoMemory,
            _ => FolderFault::Failed,
        }
    }
}

/// A folder of named files, and a place to print lines. A name is any text, and a file is a list of octets.
///
/// What a folder holds is known of some names, and which these are never changes. What is known of a name that was
/// read are octets, numbers below 256. Each call belongs to a count of faults, of the name or of what is printed, and all calls to one
/// count of memory refusals; no count ever falls. A call that answers `Ok` counts nothing, and one that finds no memory counts no
/// fault.
pub trait Folder {
    /// The names and octets that the folder represents.
    ghost state: { Self → FolderState };

    /// What calls leave of an object, in whatever number and order they are made. A caller that lends a folder which passes calls on
    /// to another knows by it afterwards what became of that one.
    ghost came: { Self → Self → Type 0 };

    /// Fills the front of `buf` with the octets of the file from `at` on, and answers how many. 0 for a `buf` that isn't
    /// empty means the end.
    fn read_at(&mut self, name: &str, at: u64, buf: &mut [u8]) -> Result<usize, FolderFault>
        ensures octets { IfOk result (ReadsFront (state self.old) name.now at buf.old buf.new) }
        ensures bound { IfOk result (λ count. count ≤ length buf.old) }
        ensures told { OnOk result (TellsOctets (state self.old) name.now) }
        ensures only { OnlyReads (state self.old) (state self.new) }
        ensures cause { HasCause ((state self.old).read_faults name.now) ((state self.new).read_faults name.now) (state self.old).refusals (state self.new).refusals result }
        ensures stand { OnOk result (CountsStand (state self.old) (state self.new)) }
        ensures spared { IsErrOf result FolderFault.NoMemory → FaultsStand (state self.old) (state self.new) }
        ensures came { came self.old self.new };

    /// Makes the name hold no octets.
    fn create(&mut self, name: &str) -> Result<(), FolderFault>
        ensures ok { OnOk result (Created (state self.old) (state self.new) name.now) }
        ensures err { OnErr result (KeepsName (state self.old) (state self.new) name.now ⊎ Created (state self.old) (state self.new) name.now) }
        ensures only { OnlyWrites (state self.old) (state self.new) name.now }
        ensures cause { HasCause ((state self.old).write_faults name.now) ((state self.new).write_faults name.now) (state self.old).refusals (state self.new).refusals result }
        ensures stand { OnOk result (CountsStand (state self.old) (state self.new)) }
        ensures spared { IsErrOf result FolderFault.NoMemory → FaultsStand (state self.old) (state self.new) }
        ensures came { came self.old self.new };

    /// Puts the piece behind what the name holds. A name that isn't held is made.
    fn append(&mut self, name: &str, piece: &[u8]) -> Result<(), FolderFault>
        ensures ok { OnOk result (Appended (state self.old) (state self.new) name.now piece.now) }
        ensures err { OnErr result (PartlyAppended (state self.old) (state self.new) name.now piece.now) }
        ensures only { OnlyWrites (state self.old) (state self.new) name.now }
        ensures cause { HasCause ((state self.old).write_faults name.now) ((state self.new).write_faults name.now) (state self.old).refusals (state self.new).refusals result }
        ensures stand { OnOk result (CountsStand (state self.old) (state self.new)) }
        ensures spared { IsErrOf result FolderFault.NoMemory → FaultsStand (state self.old) (state self.new) }
        ensures came { came self.old self.new };

    /// Puts the piece behind what was printed.
    fn say(&mut self, piece: &[u8]) -> Result<(), FolderFault>
        ensures ok { OnOk result (Said (state self.old) (state self.new) piece.now) }
        ensures err { OnErr result (PartlySaid (state self.old) (state self.new) piece.now) }
        ensures only { OnlySays (state self.old) (state self.new) }
        ensures cause { HasCause (state self.old).say_faults (state self.new).say_faults (state self.old).refusals (state self.new).refusals result }
        ensures stand { OnOk result (CountsStand (state self.old) (state self.new)) }
        ensures spared { IsErrOf result FolderFault.NoMemory → FaultsStand (state self.old) (state self.new) }
        ensures came { came self.old self.new };

    /// No call at all.
    ghost came_none: { (a : Self) → came a a };

    /// Calls after calls.
    ghost came_on: { (a b c : Self) → came a b → came b c → came a c };
}
