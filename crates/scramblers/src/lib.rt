//! The scramblers of ITU-T V.32 as pure functions of the bits so far: each bit on the line is the
//! input's bit, turned by two earlier bits of the line. A [`Scrambler`] makes the line, a
//! [`Descrambler`] reads it, and a [`Mode`] says which of the two taps a modem sends with.
#![tactic(auto)]

mod descrambler;
pub mod laws;
mod mode;
mod register;
mod scrambler;

pub use descrambler::Descrambler;
pub use mode::{ANSWER_TAP, CALL_TAP, Mode};
pub use scrambler::Scrambler;
