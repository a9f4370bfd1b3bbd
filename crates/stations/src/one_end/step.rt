// What a turn answers.

use shared_terms::LinkFault;

/// What comes after a turn.
#[derive(Clone, Copy)]
pub enum SingleStep {
    /// The link goes on.
    Going,
    /// The link was taken down. An originator alone is told.
    Closed,
}

/// Why there is no further turn.
#[derive(Clone, Copy)]
pub enum SingleFault {
    /// The user's file was not read.
    ReadFault,
    /// An output was not written.
    WriteFault,
    /// The end gave the link up.
    Link(LinkFault),
    /// The folder had no memory.
    NoMemory,
}
