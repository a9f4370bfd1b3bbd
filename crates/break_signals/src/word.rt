// Words of breaks.

/// What the information of a UI frame says: a break of that number (0 or 1) and length, in units of 10 ms, or its answer.
#[derive(Clone, Copy, PartialEq, Eq)]
pub enum BreakWord {
    /// A break with its number, 0 or 1, and its length in units of 10 ms.
    Brk { number: u8, length: u8 },
    /// BRKACK: the break of that number came. The length is repeated.
    Ack { number: u8, length: u8 },
}
