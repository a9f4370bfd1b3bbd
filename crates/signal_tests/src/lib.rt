//! Worked values of the crates between octets and samples: scramblers, coding, points, decoding, recordings and their noise.
//!
//! It has no call of its own. In their own crates these tests would prove each crate's whole code once more.
#![tactic(auto)]

#[cfg(test)]
mod decoding;
#[cfg(test)]
mod demodulation;
#[cfg(test)]
mod differences;
#[cfg(test)]
mod margins;
#[cfg(test)]
mod modulation;
#[cfg(test)]
mod picked_up;
#[cfg(test)]
mod points;
#[cfg(test)]
mod quarters;
#[cfg(test)]
mod recorded;
#[cfg(test)]
mod scrambling;
#[cfg(test)]
mod survivor_lists;
#[cfg(test)]
mod trellis;

#[cfg(test)]
use std::alloc::Global;
#[cfg(test)]
use std::process::Abort;

/// A row of a table.
#[cfg(test)]
trait Row {
    /// Whether what it tries comes to what it says.
    fn holds(&self, alloc: Global) -> bool;
}

/// Stops at a row of a table that doesn't hold, and prints its name.
#[cfg(test)]
fn assert_rows<R: Row>(rt: &impl Abort, alloc: Global, rows: &[(&str, R)]) {
    for row in rows {
        assert!(rt; row.1.holds(alloc), "{}", row.0);
    }
}
