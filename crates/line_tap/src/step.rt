// How far the turns of a tap have come.

/// What a turn of a tap comes to.
#[derive(Clone, Copy)]
pub enum TapStep {
    /// Both slots of the turn were read.
    Going,
    /// Both recordings end here, and so many turns were made, with this one.
    Done { turns: u64 },
}
