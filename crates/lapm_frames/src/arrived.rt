// What arrives at an end.

use crate::{Frame, Seen};

/// What arrives at an end in a turn.
#[derive(Drop)]
pub enum Arrived {
    /// An idle slot, or none.
    Nothing,
    /// A pattern was seen.
    Pattern(Seen),
    /// A frame came, and passed its check.
    Frame(Frame),
}

/// What arrives at an end in a turn, where a frame stays where it is.
#[derive(Clone, Copy)]
pub enum LentArrived<'a> {
    /// An idle slot, or none.
    Nothing,
    /// A pattern was seen.
    Pattern(Seen),
    /// A frame came, and passed its check.
    Frame(&'a Frame),
}
