//! Want of memory, as it goes up from each crate below.

use std::alloc::{AllocError, AllocFailed};

/// There was no memory.
#[derive(Clone, Copy, Debug, PartialEq, Eq)]
pub(crate) struct NoMemory;

impl From<AllocError> for NoMemory {
    fn from(_: AllocError) -> Self {
        NoMemory
    }
}

impl<T: Drop> From<AllocFailed<T>> for NoMemory {
    fn from(_: AllocFailed<T>) -> Self {
        NoMemory
    }
}

impl From<usp_uri::NoMemory> for NoMemory {
    fn from(_: usp_uri::NoMemory) -> Self {
        NoMemory
    }
}

impl From<usp_http::NoMemory> for NoMemory {
    fn from(_: usp_http::NoMemory) -> Self {
        NoMemory
    }
}

impl From<usp_cookie::NoMemory> for NoMemory {
    fn from(_: usp_cookie::NoMemory) -> Self {
        NoMemory
    }
}

impl From<usp_nonce::NoMemory> for NoMemory {
    fn from(_: usp_nonce::NoMemory) -> Self {
        NoMemory
    }
}

impl From<usp_rules::NoMemory> for NoMemory {
    fn from(_: usp_rules::NoMemory) -> Self {
        NoMemory
    }
}

impl From<usp_issue::NoMemory> for NoMemory {
    fn from(_: usp_issue::NoMemory) -> Self {
        NoMemory
    }
}
