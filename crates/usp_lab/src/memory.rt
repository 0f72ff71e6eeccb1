//! Want of memory, as it goes up from each crate below.

use std::alloc::{AllocError, AllocFailed};
use std::error::Error;
use std::fmt;

/// There is no memory left.
#[derive(Clone, Copy, Debug, PartialEq, Eq)]
pub struct NoMemory;

impl From<AllocError> for NoMemory {
    fn from(_: AllocError) -> NoMemory {
        NoMemory
    }
}

impl<T: Drop> From<AllocFailed<T>> for NoMemory {
    fn from(_: AllocFailed<T>) -> NoMemory {
        NoMemory
    }
}

impl From<usp_package::NoMemory> for NoMemory {
    fn from(_: usp_package::NoMemory) -> NoMemory {
        NoMemory
    }
}

impl From<usp_jws::NoMemory> for NoMemory {
    fn from(_: usp_jws::NoMemory) -> NoMemory {
        NoMemory
    }
}

impl From<usp_rules::NoMemory> for NoMemory {
    fn from(_: usp_rules::NoMemory) -> NoMemory {
        NoMemory
    }
}

impl From<usp_trace::NoMemory> for NoMemory {
    fn from(_: usp_trace::NoMemory) -> NoMemory {
        NoMemory
    }
}

// The issue that the ledger could not take is given up.
impl From<(usp_trace::Issue, usp_trace::NoMemory)> for NoMemory {
    fn from(_: (usp_trace::Issue, usp_trace::NoMemory)) -> NoMemory {
        NoMemory
    }
}

impl fmt::Display for NoMemory {
    fn fmt<W: fmt::Write>(&self, f: &mut fmt::Formatter<W>) -> fmt::Result {
        write!(f, "there is no memory left: give the program more")
    }
}

impl Error for NoMemory {}
