//! The limits of serving.

/// How many lines are run at most in one commit.
pub const COMMIT_LINES: u32 = 1024;
