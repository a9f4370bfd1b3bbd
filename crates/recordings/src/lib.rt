//! Recordings of one direction of a line: a header that says its [`Rate`] and mode, and then its samples. Pure functions of these and of
//! the octets, both ways: [`header_octets`] gives the first octets, and [`octets_of`] those of a sample; [`read_header`] reads the mode, and
//! [`sample_at`] a sample.
#![tactic(auto)]

mod header;
mod rate;
mod sample;

pub use header::{HEADER, header_octets, read_header};
pub use rate::Rate;
pub use sample::{SAMPLE, octets_of, octets_of_two, sample_at};
