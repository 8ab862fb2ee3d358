use std::alloc::{AllocError, AllocFailed};
use thiserror::Error;

/// Out of memory: the one refusal that a caller can't foresee.
#[derive(Clone, Copy, Debug, PartialEq, Eq, Error)]
#[error("out of memory")]
pub struct NoMem;

impl From<AllocError> for NoMem {
    fn from(_error: AllocError) -> Self {
        NoMem
    }
}

impl<T: Drop> From<AllocFailed<T>> for NoMem {
    fn from(_failed: AllocFailed<T>) -> Self {
        NoMem
    }
}
