// What a soak shows.

/// What the turns of a soak show that is done.
#[derive(Clone, Copy, PartialEq, Eq)]
pub struct SoakCounts {
    /// The number of the last turn.
    pub turn: u64,
    /// Slots that were lost.
    pub lost: u64,
    /// I frames whose segment had been sent before.
    pub again: u64,
}
