// The limits of a tap's inputs.

use noise_script::SCRIPT_OCTETS;
use run_inputs::Limits;

/// The most octets of a recording that is tapped, with its header.
pub const TAP_LIMIT: u64 = 268_435_456;

/// The channel of the link.
pub(crate) const DLCI: u8 = 0;

/// The most octets of the script and of each recording.
pub const LIMITS: Limits = Limits {
    script: SCRIPT_OCTETS as u64,
    file: TAP_LIMIT,
};
