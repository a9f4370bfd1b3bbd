//! An end of the link with its user, on whatever line. A [`Station`] reads its user's file segment by segment, appends what its end takes to
//! another, and hands on the user's breaks and pauses. [`Single`] is one station alone, against recorded bits of any peer. What a turn leaves in
//! a trace is appended here too ([`append_turn`], [`append_line`]). All are pure functions of what they are made from and of the folder that
//! is lent to each turn.
//!
//! What writes a line of a trace ([`write_line`]) is handed on.
#![tactic(auto)]

mod fault;
pub mod one_end;
mod segment;
mod station;
mod trace;

pub use fault::folder_fault;
pub use line_texts::{TraceLine, write_frame_text, write_line, write_parts};
pub use one_end::{SLOT_OCTETS, Single, SingleFault, SingleStep};
pub use station::Station;
pub use trace::{TURN_TEXT, append_chance, append_line, append_turn};
