//! The commands that run a link: `run` and `record` over a line that a script disturbs, `soak` with files and a script that a seed draws, and
//! `peer` one end against recorded bits of any other. Each is a pure function of the words and of the folder that are handed in.
#![tactic(auto)]

pub mod peer;
pub mod run;
pub mod soak;
