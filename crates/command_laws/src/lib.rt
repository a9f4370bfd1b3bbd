//! Theorems that join commands: what a decoding makes of what was encoded, what a tap makes of what was recorded of a run, what a
//! pickup finds in the middle of such a recording, what an audit prints of the trace that a run leaves, and how a pair
//! and a run of one of its links alone compare. And the definitions of runs and pairs against what was [`worked`] out apart from them.
#![tactic(auto)]

pub mod laws;
pub mod worked;
