// How much a script may hold.

/// Octets of a script's text.
pub const SCRIPT_OCTETS: usize = 65536;

/// Lines `lose`, of both roles together.
pub const LOSE_LINES: usize = 1024;

/// Lines `hit`, of both roles together.
pub const HIT_LINES: usize = 1024;

/// Lines `noise`, of both roles together.
pub const NOISE_LINES: usize = 64;

/// Lines `break`, of both roles together.
pub const BREAK_LINES: usize = 64;

/// Lines `busy`, of both roles together.
pub const BUSY_LINES: usize = 64;

/// No part of a symbol's offset is farther from zero than this, whatever the script: 32,768 for each `hit` line and 32,767
/// for each `noise` line.
pub const OFFSET_MOST: u32 = 35651520;
