//! The state of an end of a link, in plain values, what it becomes by what it receives, what it transmits, and plays of two ends,
//! as definitions, with the theorems of plays. No end runs here; [`laws`] says what holds of all plays.
//!
//! The plain types that the definitions speak of are an end's [`Setup`] and [`Phase`], what it [`Owes`] at once, and why it gives
//! its link up ([`LinkFault`]).
#![tactic(auto)]

mod answer;
pub mod laws;
mod owes;
mod phase;
mod setup;

pub use answer::Answer;
pub use owes::Owes;
pub use phase::Phase;
pub use setup::Setup;
pub use shared_terms::LinkFault;
