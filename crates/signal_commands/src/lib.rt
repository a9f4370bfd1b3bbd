//! The commands over recordings of one direction of a line: `encode` makes one of a file, `decode` and `pickup` read one, from its
//! beginning or from anywhere, and `margin` prints how much noise it bore. Each is a pure function of the words and of the folder that are handed in.
#![tactic(auto)]

mod batch;
pub mod decode;
pub mod encode;
pub mod margin;
pub mod pickup;
mod pieces;
