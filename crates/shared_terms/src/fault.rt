// Why a link ends.

/// Why an end gives its link up.
#[derive(Clone, Copy, PartialEq, Eq)]
pub enum LinkFault {
    /// The other end answered no pattern.
    NotDetected,
    /// All tries are spent: the oldest segment that isn't acknowledged, and the turn in which the first of the periods began.
    Spent { segment: u64, since: u64 },
    /// An acknowledgement of a number that wasn't sent, modulo 128 as its bounds.
    BadAck { nr: u8, va: u8, high: u8 },
    /// The other end begins anew, or sent FRMR: segments acknowledged, and segments taken.
    PeerReset { va: u64, vr: u64 },
    /// The other end refuses, or hangs up.
    PeerRefused,
}
