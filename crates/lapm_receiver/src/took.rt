// What becomes of a segment that arrives.

/// What becomes of a segment that arrives.
#[derive(Clone, Copy, PartialEq, Eq)]
pub enum Took {
    /// The segment was the next one in order.
    InOrder,
    /// The segment came before its turn, and is held.
    Kept,
    /// The segment was taken before, or is held already.
    Repeat,
    /// One before it is missing, and it is dropped.
    Gap,
}
