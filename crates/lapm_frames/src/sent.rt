// What an end sends.

use crate::Frame;

/// What an end sends in a turn.
#[derive(Drop, PartialEq, Eq)]
pub enum Sent {
    /// Nothing but ones.
    Mark,
    /// The originator's pattern.
    Odp,
    /// The answerer's pattern.
    Adp,
    /// Nothing but flags.
    Flags,
    /// A frame between flags.
    Frame(Frame),
}
