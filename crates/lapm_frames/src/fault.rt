// Why octets are no frame.

use thiserror::Error;

/// The first fault of octets that are no frame.
#[derive(Clone, Copy, Debug, PartialEq, Eq, Error)]
pub enum FrameFault {
    /// An address of two octets, or that of another channel.
    #[error("address {octet:02x}")]
    Address { octet: u8 },
    /// The control octet of no kind that the address allows.
    #[error("control {octet:02x}")]
    Control { octet: u8 },
    /// Fewer octets than the kind has.
    #[error("short")]
    Short,
    /// More octets than the kind allows. `len` is the number of octets.
    #[error("long {len}")]
    Long { len: usize },
}

/// Why octets are no frame with its check.
#[derive(Clone, Copy, Debug, PartialEq, Eq, Error)]
pub enum CheckedFault {
    /// The last octets aren't the check of those before.
    #[error("bad check")]
    BadCheck,
    /// The check is right, and the octets before it are no frame.
    #[error(transparent)]
    Refused(FrameFault),
}
