// The sizes that the frames of a line share.

/// The most octets of information in a frame.
pub const INFO: usize = 1024;

/// The most octets of a frame with its check: an address, two of control, the information and four of check.
pub const WHOLE: usize = INFO + 7;

/// The most symbols of a slot. Each carries four bits, and the longest frame leaves 128 symbols behind its closing flag.
pub const SLOT: usize = 2615;
