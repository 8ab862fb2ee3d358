//! How much a program reads.

/// The most bytes that it reads at a time.
pub const READ_BYTES: usize = 8192;

/// The most reads. Each gives a byte at least.
pub const MOST_READS: u64 = 9_223_372_036_854_775_807;
