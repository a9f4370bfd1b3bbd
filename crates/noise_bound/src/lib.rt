//! What noise can't change. As theorems what the exact decoder of the eight-state code makes of a line: without noise it releases what was
//! sent, is at most 24 symbols behind, and so never loses the line ([`noiseless`]); as long as all of the noise is less than a bound,
//! whatever its places, the same holds, and it is never too far behind ([`noisy`]). How much noise there is between octets and the
//! samples of a recording is counted by [`Margin`]. A recording with little noise that a receiver picks up in the middle, turned by however
//! many quarters, has the bits that were sent ([`laws`]).
#![tactic(auto)]

pub mod laws;
mod margin;
pub mod noiseless;
pub mod noisy;

pub use margin::Margin;
