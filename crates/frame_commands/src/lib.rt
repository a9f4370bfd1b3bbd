//! The commands over what was recorded above the line: `frames` lists the pieces of a stream of bits, and `xid` explains one information
//! field. Each is a pure function of the words and of the folder that are handed in.
#![tactic(auto)]

pub mod frames;
pub mod xid;
