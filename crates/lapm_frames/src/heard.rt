// What a slot is to the end that hears it.

use crate::Sent;

/// What becomes of a slot.
#[derive(Drop)]
pub enum Heard {
    /// Nothing was sent and nothing received.
    Nothing,
    /// Exactly what was sent was received.
    Passed(Sent),
    /// What was sent was not received.
    Lost(Sent),
    /// Something else was received.
    Chance,
}
