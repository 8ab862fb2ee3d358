/// How many bytes a line of a journal has at most.
pub const LINE_BYTES: usize = 4096;

/// The last place at which a gate may lie.
pub const LAST_GATE: u64 = 4_611_686_018_427_387_904;

/// How many bytes of a group's records are written at once, at most: three of the longest records.
pub(crate) const PIECE_BYTES: usize = 16_384;
