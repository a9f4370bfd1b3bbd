// How an end is set up.

use shared_terms::Role;
use xid_params::Offer;

/// How an end is set up: what it is and offers, how often it tries, and its timer's length in turns.
#[derive(Clone, Copy)]
pub struct Setup {
    /// Which end it is.
    pub role: Role,
    /// What the end offers.
    pub offer: Offer,
    /// N400, 1 to 20.
    pub tries: u8,
    /// T401, in turns.
    pub period: u32,
}
