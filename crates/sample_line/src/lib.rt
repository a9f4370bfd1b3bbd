//! One direction of the line, from the slots that an end sends to what the other end hears: a pure function of slots and of a
//! script. A [`Coder`] codes slots as bits and labels where they are sent; a [`Line`] passes the labels as samples to the receiver's decoder;
//! [`Heard`] is what becomes of a slot.
#![tactic(auto)]

mod coder;
mod coding;
mod framing;
mod hearer;
mod label_slot;
pub mod laws;
mod line;
mod mode;
mod path;
mod receiver;
mod same_frame;
mod tally;
mod transmitter;

pub use coder::Coder;
pub use coding::write_sent;
pub use framing::Framing;
pub use hearer::LineDecoder;
pub use label_slot::LabelSlot;
pub use lapm_frames::Heard;
pub use line::Line;
pub use mode::mode_of;
