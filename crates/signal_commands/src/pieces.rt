// How a file is read whose octets are coded, or compared with a recording.

/// How many octets of the file are read at a time.
pub(crate) const FILE_PIECE: usize = 512;
