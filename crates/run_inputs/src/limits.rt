// The limits of a run's inputs.

use noise_script::SCRIPT_OCTETS;
use shared_terms::RUN_FILE_LIMIT;

/// The most octets of a script and of a file that is sent.
#[derive(Clone, Copy)]
pub struct Limits {
    /// In octets.
    pub script: u64,
    /// In octets, of each.
    pub file: u64,
}

/// The limits of a run.
pub const LIMITS: Limits = Limits {
    script: SCRIPT_OCTETS as u64,
    file: RUN_FILE_LIMIT,
};
