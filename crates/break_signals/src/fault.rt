// Why octets are no word of a break.

use thiserror::Error;

/// The first fault of octets that spell no word of a break.
#[derive(Clone, Copy, Debug, PartialEq, Eq, Error)]
pub enum BreakFault {
    /// The first octet is neither that of a break nor that of its answer.
    #[error("kind {octet:02x}")]
    Kind { octet: u8 },
    /// The number is neither 0 nor 1.
    #[error("number {octet:02x}")]
    Number { octet: u8 },
    /// There are fewer or more than three octets.
    #[error("length {len}")]
    Length { len: usize },
}
