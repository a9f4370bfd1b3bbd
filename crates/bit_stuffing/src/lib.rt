//! Bits of a line: frames between flags as in ITU-T V.42, and the slots that carry them.
//!
//! A pure function of the octets and bits that are handed in. The central types are [`SlotWriter`], which writes
//! a frame between flags into a [`BitSlot`], and [`Deframer`], which finds each [`Piece`] in a stream of bits.
#![tactic(auto)]

mod bit_slot;
mod bits;
mod deframer;
mod finder;
pub mod laws;
mod pen;
mod piece;
mod slot_writer;
mod unstuffer;

pub use bit_slot::BitSlot;
pub use deframer::Deframer;
pub use piece::{Piece, SHORTEST};
pub use slot_writer::{HEAD, SlotWriter, TAIL};
