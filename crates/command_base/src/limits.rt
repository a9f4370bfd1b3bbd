// The limits of inputs, in octets.

/// The most octets of a recording: its header, and two samples for each octet of the longest file.
pub const RECORDING_LIMIT: u64 = 8_388_616;

/// The most octets of a word of hexadecimal digits.
pub const HEX_LIMIT: usize = 512;
