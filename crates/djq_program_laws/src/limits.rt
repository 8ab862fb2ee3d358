//! The limits of `serve`.

/// How many turns of the hub a round of `serve` has at most.
pub const ROUND_TURNS: u64 = 64;
