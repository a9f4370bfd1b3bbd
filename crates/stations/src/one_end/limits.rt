// The sizes of a run against a peer.

/// The octets of a slot's bits: 464 symbols of four bits.
pub const SLOT_OCTETS: usize = 232;
