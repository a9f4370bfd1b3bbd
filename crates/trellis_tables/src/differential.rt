// The differential coding of ITU-T V.32 with trellis coding, as a pure function of the quarter turns
// so far: a [`Turner`] sends their sum modulo 4, and an [`Unturner`] takes the differences. So a line
// that is turned by a quarter carries the same numbers.

pub mod laws;
mod turner;
mod unturner;

pub use turner::Turner;
pub use unturner::Unturner;
