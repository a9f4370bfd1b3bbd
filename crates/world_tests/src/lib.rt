//! Worked examples of the crates below a run: folders, scripts, and the line of samples; and of the library that gateways call.
//!
//! It has no call of its own. In their own crates these tests would prove each crate's whole code once more.
#![tactic(auto)]

#[cfg(test)]
mod folders;
#[cfg(test)]
mod library;
#[cfg(test)]
mod lines;
#[cfg(test)]
mod scripts;

#[cfg(test)]
use std::alloc::Global;
#[cfg(test)]
use std::process::Abort;

/// A row of a table.
#[cfg(test)]
trait Row {
    /// Whether what it tries comes to what it says.
    fn holds(&self, alloc: Global) -> bool;
}

/// Stops at a row of a table that doesn't hold, and prints its name.
#[cfg(test)]
fn assert_rows<R: Row>(rt: &impl Abort, alloc: Global, rows: &[(&str, R)]) {
    for row in rows {
        assert!(rt; row.1.holds(alloc), "{}", row.0);
    }
}
