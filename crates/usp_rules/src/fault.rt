//! Want of memory, the one fault: what a request lacks is a rule.
use std::alloc::{AllocError, AllocFailed};
use std::error::Error;
use std::fmt;

/// There is no memory left.
#[derive(Clone, Copy, Debug, PartialEq, Eq)]
pub struct NoMemory;

impl fmt::Display for NoMemory {
    fn fmt<W: fmt::Write>(&self, f: &mut fmt::Formatter<W>) -> fmt::Result {
        write!(f, "there is no memory left: give the program more")
    }
}

impl Error for NoMemory {}

impl From<AllocError> for NoMemory {
    fn from(_: AllocError) -> Self {
        NoMemory
    }
}

impl<T: Drop> From<AllocFailed<T>> for NoMemory {
    fn from(_: AllocFailed<T>) -> Self {
        NoMemory
    }
}

impl From<usp_json::NoMemory> for NoMemory {
    fn from(_: usp_json::NoMemory) -> Self {
        NoMemory
    }
}

impl From<usp_jws::NoMemory> for NoMemory {
    fn from(_: usp_jws::NoMemory) -> Self {
        NoMemory
    }
}

impl From<usp_package::NoMemory> for NoMemory {
    fn from(_: usp_package::NoMemory) -> Self {
        NoMemory
    }
}

impl From<usp_ere::NoMemory> for NoMemory {
    fn from(_: usp_ere::NoMemory) -> Self {
        NoMemory
    }
}
