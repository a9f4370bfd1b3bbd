//! Which runs over the line of samples are done, that each run ends, and why one ends by a lost link (it was starved), as theorems
//! ([`laws`]). Nothing runs here.
#![tactic(auto)]

pub mod laws;
