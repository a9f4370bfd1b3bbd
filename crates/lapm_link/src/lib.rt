//! An end of the link, as a pure function of what arrives and of turn numbers, by ITU-T V.42. There is no clock and no line: in
//! each turn an end hears and then speaks.
//!
//! The states are types of their own, and each moves into the next one. The central types are [`AnyEnd`], an end in any of them;
//! [`Arrived`], what it hears, and [`Arrives`], any type that says it; [`Sent`], what it sends; and [`Broken`], why a link ended.
#![tactic(auto)]

mod answer;
mod answering;
mod any_end;
mod asking;
mod attempt;
mod carried;
mod closed;
mod connected;
mod detecting;
mod establishing;
pub mod laws;
mod negotiating;
mod number;
mod offers;
mod releasing;
mod rules;
mod steps;
mod terms;
mod timer;
mod unlinked;

pub use any_end::AnyEnd;
pub use closed::{Broken, Closed};
pub use connected::Connected;
pub use detecting::Detecting;
pub use establishing::Establishing;
pub use lapm_frames::{Arrived, Arrives, LentArrived, Seen, Sent};
pub use link_account::{LinkFault, Phase, Setup};
pub use negotiating::Negotiating;
pub use releasing::Releasing;
