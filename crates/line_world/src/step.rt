// What a turn answers.

/// What comes after a turn.
#[derive(Clone, Copy, PartialEq, Eq)]
pub enum Step {
    /// There is a next turn.
    Going,
    /// Both files have crossed. `turn` is the number of this last turn.
    Done { turn: u64 },
}
