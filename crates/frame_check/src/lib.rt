//! Octet lists of bounded length, and the check that goes with a frame.
//!
//! A pure function of the octets that are handed in. The central types are [`Octets`], with its two sizes [`Info`] and
//! [`Whole`], and [`Check`], which names one of the two checks.
#![tactic(auto)]

mod check;
pub mod laws;
mod octets;
mod register;
mod sizes;

pub use check::{Check, append, check_octets, passes};
pub use octets::{Info, Octets, Whole};
pub use sizes::{INFO, SLOT, WHOLE};
