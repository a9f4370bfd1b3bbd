//! The frames of the link-access procedure, from values to octets and back.
//!
//! A pure function of the octets, of the end that sends them and of the channel. The central types are [`Frame`], a frame's
//! content, [`Parts`], what a frame of any kind consists of, and [`FrameFault`], why octets are no frame. [`read`] and [`write`]
//! take octets without the check that goes behind them, [`read_checked`] and [`write_checked`] with it.
//!
//! What a slot of the line holds, a frame or what stands between frames, is here too: what an end sends in it ([`Sent`]), what
//! of it arrives at the other end ([`Arrived`]), and what becomes of it on the way ([`Heard`]).
#![tactic(auto)]

mod address;
mod arrived;
mod arrives;
mod checked;
mod control;
mod fault;
mod frame;
mod heard;
mod information;
mod kind;
pub mod laws;
mod lent;
mod numbers;
mod parts;
mod seen;
mod sent;
mod spelling;
mod supervisory;
mod unnumbered;

pub use arrived::{Arrived, LentArrived};
pub use arrives::Arrives;
pub use checked::{CheckedParts, check_parts, read_checked, read_checked_lent, write_checked};
pub use fault::{CheckedFault, FrameFault};
pub use frame::Frame;
pub use heard::Heard;
pub use kind::FrameKind;
pub use lent::LentFrame;
pub use parts::Parts;
pub use seen::Seen;
pub use sent::Sent;
pub use shared_terms::Role;
pub use spelling::{read, write};
