//! Texts that lines are made of: numbers in decimal digits, the texts that name frames to a reader, as in `rr rsp r=5 p=0`, and the
//! lines of a trace, as in `10 orig rr rsp r=1 p=0 > disc cmd p=1`. Pure functions of the number, of the frame and of the line.
//!
//! [`put_decimal`] puts a number behind a list of octets, and [`put_frame_text`] the text of a frame whose information is lent;
//! [`write_frame_text`] writes a frame's text into a [`FrameText`], and [`write_line`] the text of a [`TraceLine`] into a
//! [`LineText`], or [`write_parts`] by its parts, which are lent. None takes memory.
#![tactic(auto)]

mod decimal;
pub mod laws;
mod slots;
mod text;
mod trace_line;
mod words;

pub use decimal::put_decimal;
pub use text::{put_frame_text, write_frame_text};
pub use trace_line::{TraceLine, write_line, write_parts};
pub use words::{FrameText, LineText, TEXT};
