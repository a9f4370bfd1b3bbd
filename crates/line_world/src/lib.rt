//! A line of samples and the ends on it. A [`World`] is two ends of the link, each with its user, over two directions of the line, in turns: a
//! run, as its script and its files determine it. [`run_turns`] makes its turns up to the end of the run. It is a pure function of what it is
//! made from and of the folder that is lent to each turn.
//!
//! A world is what there is twice: both ends ([`Modems`]), and both directions of the line ([`Lines`]), the originator's first where the order
//! counts. An end with its user is a [`stations::Station`]. The line and the script are lent to each turn of the ends, so that links can share
//! a line.
//!
//! A direction ([`DelayedLine`]) has one line of samples with its decoder, through which the slots of all links pass in the order in which they
//! are sent: what an end sends is on its way for as many slots as the direction is told when it is made. [`Directions`] are both, for slots
//! that were coded elsewhere; [`Lines`] have a coder for each as well.
//!
//! One direction of the line without delay ([`Coder`], [`Line`]) is handed on.
#![tactic(auto)]

mod direction;
mod directions;
mod end_coder;
pub mod laws;
mod lines;
mod link;
mod modems;
mod slot;
mod step;
mod tally;
mod tape;
mod turn_text;
mod turns;
mod world;

pub use direction::DelayedLine;
pub use directions::{Directions, LineEnd, slot_symbols};
pub use line_run::{Names, RunFault};
pub use lines::Lines;
use link::{Breaking, Link};
pub use modems::Modems;
pub use sample_line::{Coder, Heard, LabelSlot, Line};
pub use step::Step;
pub use tape::Tape;
pub use turn_text::write_chance;
pub use turns::run_turns;
pub use world::World;
