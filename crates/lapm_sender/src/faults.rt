// What goes wrong with acknowledgements.

/// An acknowledgement of a number that wasn't sent. All three are modulo 128: the number received, the number of segments
/// acknowledged, and one more than the highest number sent.
#[derive(Clone, Copy, PartialEq, Eq)]
pub struct BadAck {
    /// The number received [N(R)].
    pub nr: u8,
    /// The segments acknowledged, modulo 128 [V(A)].
    pub va: u8,
    /// One more than the highest number sent, modulo 128 [V(S)].
    pub high: u8,
}

/// All tries are spent. `segment` is the number of the oldest segment that isn't acknowledged.
#[derive(Clone, Copy, PartialEq, Eq)]
pub struct Spent {
    /// Counted from 0, without a modulus.
    pub segment: u64,
}
