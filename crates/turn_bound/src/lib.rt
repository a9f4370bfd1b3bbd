//! A run of two ends over a line ends soon enough: how many turns it has at most, and what holds in each. Nothing runs here.
#![tactic(auto)]

pub mod laws;
