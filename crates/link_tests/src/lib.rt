//! Worked values of the crates of the link: checks, slots of bits, patterns, frames, offers, breaks, and both ends of a window.
//!
//! It has no call of its own. In their own crates these tests would prove each crate's whole code once more.
#![tactic(auto)]

#[cfg(test)]
mod breaks;
#[cfg(test)]
mod checks;
#[cfg(test)]
mod fours;
#[cfg(test)]
mod octets;
#[cfg(test)]
mod offers;
#[cfg(test)]
mod patterns;
#[cfg(test)]
mod receiving;
#[cfg(test)]
mod sending;
#[cfg(test)]
mod slots;
#[cfg(test)]
mod texts;

#[cfg(test)]
use std::process::Abort;

/// Stops at a row of a table that doesn't hold, and prints its name.
#[cfg(test)]
fn assert_row(rt: &impl Abort, name: &str, holds: bool) {
    assert!(rt; holds, "{name}");
}
