//! The patterns by which two modems find that both correct errors, by ITU-T V.42: a pure function of bits.
//!
//! [`pattern_slot`] and [`mark_slot`] write slots of bits, [`write_patterns`] and [`write_mark`] among those of flags, and [`PatternReader`] tells at each bit of a stream
//! which pattern ends there, if one does. An [`Ear`] is what hears a stream of bits: its pieces, and its patterns.
#![tactic(auto)]

mod among;
mod characters;
mod ear;
pub mod laws;
mod reader;
mod slots;

pub use among::{write_mark, write_patterns};
pub use ear::Ear;
pub use lapm_frames::Seen;
pub use reader::PatternReader;
pub use slots::{mark_slot, pattern_slot};
