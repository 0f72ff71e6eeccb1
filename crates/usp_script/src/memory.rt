//! Want of memory, as it goes up from each crate below.
ghost use Rattle.std.specs.Prelude.{◌≡◌};
ghost use Rattle.usp_base.specs.declared.fault.LoadFault.TheVariants as load;

use std::alloc::{AllocError, AllocFailed};
use std::error::Error;
use std::fmt;
use usp_base::LoadFault;

/// There was no memory.
#[derive(Clone, Copy, Debug, PartialEq, Eq)]
pub struct NoMemory;

impl fmt::Display for NoMemory {
    fn fmt<W: fmt::Write>(&self, f: &mut fmt::Formatter<W>) -> fmt::Result {
        write!(f, "there was no memory")
    }
}

impl Error for NoMemory {}

impl From<AllocError> for NoMemory {
    ghost from_gives = { λ _ e. Unit {0} };

    fn from(_: AllocError) -> Self {
        NoMemory
    }
}

impl<T: Drop> From<AllocFailed<T>> for NoMemory {
    ghost from_gives = { λ _ e. Unit {0} };

    fn from(_: AllocFailed<T>) -> Self {
        NoMemory
    }
}

impl From<usp_jws::NoMemory> for NoMemory {
    ghost from_gives = { λ _ e. Unit {0} };

    fn from(_: usp_jws::NoMemory) -> Self {
        NoMemory
    }
}

impl From<usp_claims::NoMemory> for NoMemory {
    ghost from_gives = { λ _ e. Unit {0} };

    fn from(_: usp_claims::NoMemory) -> Self {
        NoMemory
    }
}

impl From<usp_rules::NoMemory> for NoMemory {
    ghost from_gives = { λ _ e. Unit {0} };

    fn from(_: usp_rules::NoMemory) -> Self {
        NoMemory
    }
}

impl From<NoMemory> for LoadFault {
    ghost from_gives = { λ _ e. e ≡ load.NoMemory };

    fn from(_: NoMemory) -> Self {
        LoadFault::NoMemory
    }
}
