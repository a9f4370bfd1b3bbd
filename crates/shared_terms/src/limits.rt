// How many octets the files have that commands read.

/// The most octets of the files of `encode` and `margin`, of the bits of `frames` and `peer`, and of the file that goes to a peer.
pub const FILE_LIMIT: u64 = 1_048_576;

/// The most octets of a file that a run sends: it ends there for who reads it.
pub const RUN_FILE_LIMIT: u64 = 16_777_216;
