// How the frames of a direction are checked and addressed.

use frame_check::Check;
use shared_terms::Role;

/// How the frames that an end sends are checked and addressed.
#[derive(Clone, Copy)]
pub struct Framing {
    /// The check of the frames with numbers.
    pub check: Check,
    /// The end that sends them.
    pub sender: Role,
    /// The channel, below 64.
    pub dlci: u8,
}
