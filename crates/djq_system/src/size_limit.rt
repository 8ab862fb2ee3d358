//! The limit of a file's size, past which the system ends the process that writes, without a word.
ghost use Rattle.std.specs.Prelude.{◌≡◌};

use libc::types::rlimit;
use std::io::{Error, ErrorKind};

/// What the system is asked for.
const RLIMIT_FSIZE: i32 = 1;

/// How many bytes a file of this process may have; all that a number names if there is no limit.
pub(crate) fn most_bytes() -> u64 {
    let mut limit = rlimit {
        rlim_cur: u64::MAX,
        rlim_max: u64::MAX,
    };
    if libc::getrlimit(RLIMIT_FSIZE, &mut limit) < 0 {
        return u64::MAX;
    }
    limit.rlim_cur
}

/// Whether a write that ends at this place would pass the limit.
pub(crate) fn passes_limit(end: u64) -> bool {
    most_bytes() < end
}

/// The failure of a write that isn't made, since it would pass the limit.
pub(crate) fn past_limit() -> Error {
    Error::new(
        ErrorKind::FileTooLarge,
        "it would pass the limit of a file's size",
    )
}
