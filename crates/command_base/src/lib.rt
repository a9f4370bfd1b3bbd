//! What the commands of the modem have in common: how one ends ([`Status`], [`Stop`]), the line that it then prints ([`tell`],
//! [`tell_stop`]), the limits of inputs, and single steps over a folder's inputs and outputs; a recording among the inputs, whose
//! header is looked at ([`open_recording`]) and whose samples are read on piece by piece ([`read_samples`]); and what the pieces of a
//! stream of bits are to a reader of frames, with a line for each ([`Listener`]). A pure function of the values and of the folder that
//! are handed in.
#![tactic(auto)]

mod apart;
mod ends;
mod input;
mod laws;
mod limits;
mod lines;
mod listener;
mod opening;
mod output;
mod piece_lines;
mod samples;
mod status;
mod stop;
mod telling;

pub use apart::are_apart;
pub use ends::{hearer_of, sender_of};
pub use input::{read_file, read_part, read_piece, within_limit};
pub use laws::{apart_names_differ, limits_in_octets};
pub use limits::{HEX_LIMIT, RECORDING_LIMIT};
pub use lines::{
    LINE, ResultLine, both_done_line, count_line, done_line, margin_line, octets_line, pieces_line,
    samples_line, soak_line, true_line, turns_line, usage_line,
};
pub use listener::Listener;
pub use opening::open_recording;
pub use output::{append_output, create_output, create_outputs, say_line};
pub use samples::{PIECE, read_samples};
pub use shared_terms::{AuditCause, Cause, LinkFault, Role};
pub use status::Status;
pub use stop::Stop;
pub use telling::{tell, tell_stop};
