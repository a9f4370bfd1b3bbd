//! Whole runs of two ends over a line, as definitions and theorems; nothing runs here. What a line makes of the slots that are sent is a
//! premise of the theorems, so that they hold of any line.
//!
//! [`laws`] says what holds of all runs.
#![tactic(auto)]

pub mod laws;
