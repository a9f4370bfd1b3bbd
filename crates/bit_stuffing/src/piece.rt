// What is found in a stream of bits.

/// The fewest octets of a frame with its check: an address, a control field and a check of two octets.
pub const SHORTEST: usize = 4;

/// What stood between two flags, or an abort.
#[derive(Clone, Copy, PartialEq, Eq)]
pub enum Piece {
    /// Octets, no fewer and no more than a frame may have.
    Whole,
    /// No stuffing of whole octets.
    Ragged,
    /// Seven ones in a row, in place of the second flag.
    Aborted,
    /// More bits than the longest frame has.
    TooLong,
    /// Fewer octets than the shortest frame has.
    TooShort,
}
