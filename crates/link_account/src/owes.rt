// What an end owes.

use crate::Answer;

/// What an end owes at once. What its receiver owes is of that part.
#[derive(Clone, Copy)]
pub struct Owes {
    /// The answer to a pattern, an offer or a U command; the latest takes the place of others.
    pub answer: Option<Answer>,
    /// An RR response with F = 1, or RNR where the end is busy.
    pub reply: bool,
    /// Whether the user asks for a pause.
    pub busy: bool,
    /// Whether the end is busy, as the other end was last told: no at first.
    pub busy_told: bool,
}
