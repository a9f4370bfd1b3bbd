// Why a run ends early.

use shared_terms::Role;

/// Why a run ends with less than both files. Where the line ends it, the role is that of the end that hears.
#[derive(Clone, Copy)]
pub enum RunFault {
    /// A file that is sent was not read.
    ReadFault,
    /// An output was not written.
    WriteFault,
    /// The symbol counts all of that direction from 0.
    LineLost { role: Role, symbol: u64 },
    /// Something else than what was sent was received.
    ChanceMatch { role: Role, turn: u64 },
    /// The originator saw no pattern of the answerer's.
    NotDetected { turn: u64 },
    /// The tries of the end of that role are spent; its first segment that wasn't acknowledged is this one.
    LinkLost { role: Role, segment: u64, turn: u64 },
    /// The folder had no memory.
    NoMemory,
}
