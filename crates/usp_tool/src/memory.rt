//! Want of memory, as it goes up from each crate below.
ghost use Rattle.std.specs.Prelude.{◌≡◌};
ghost use Rattle.usp_base.specs.declared.fault.LoadFault.TheVariants as load;

use std::alloc::{AllocError, AllocFailed};
use usp_base::LoadFault;
use usp_claims::Claims;

/// There was no memory.
#[derive(Clone, Copy, Debug, PartialEq, Eq)]
pub struct NoMemory;

impl From<AllocError> for NoMemory {
    ghost from_gives = { λ _ e. Unit {0} };

    fn from(_: AllocError) -> Self {
        NoMemory
    }
}

impl<T: Drop> From<AllocFailed<T>> for NoMemory {
    ghost from_gives = { λ _ e. Unit {0} };

    fn from(_: AllocFailed<T>) -> Self {
        NoMemory
    }
}

impl From<usp_jws::NoMemory> for NoMemory {
    ghost from_gives = { λ _ e. Unit {0} };

    fn from(_: usp_jws::NoMemory) -> Self {
        NoMemory
    }
}

impl From<usp_claims::NoMemory> for NoMemory {
    ghost from_gives = { λ _ e. Unit {0} };

    fn from(_: usp_claims::NoMemory) -> Self {
        NoMemory
    }
}

// The claims that could not be changed are given up.
impl From<(Claims, usp_claims::NoMemory)> for NoMemory {
    ghost from_gives = { λ _ e. Unit {0} };

    fn from(_: (Claims, usp_claims::NoMemory)) -> Self {
        NoMemory
    }
}

impl From<usp_package::NoMemory> for NoMemory {
    ghost from_gives = { λ _ e. Unit {0} };

    fn from(_: usp_package::NoMemory) -> Self {
        NoMemory
    }
}

impl From<usp_nonce::NoMemory> for NoMemory {
    ghost from_gives = { λ _ e. Unit {0} };

    fn from(_: usp_nonce::NoMemory) -> Self {
        NoMemory
    }
}

impl From<usp_shared::NoMemory> for NoMemory {
    ghost from_gives = { λ _ e. Unit {0} };

    fn from(_: usp_shared::NoMemory) -> Self {
        NoMemory
    }
}

impl From<usp_rules::NoMemory> for NoMemory {
    ghost from_gives = { λ _ e. Unit {0} };

    fn from(_: usp_rules::NoMemory) -> Self {
        NoMemory
    }
}

impl From<usp_script::NoMemory> for NoMemory {
    ghost from_gives = { λ _ e. Unit {0} };

    fn from(_: usp_script::NoMemory) -> Self {
        NoMemory
    }
}

impl From<usp_lab::NoMemory> for NoMemory {
    ghost from_gives = { λ _ e. Unit {0} };

    fn from(_: usp_lab::NoMemory) -> Self {
        NoMemory
    }
}

impl From<NoMemory> for LoadFault {
    ghost from_gives = { λ _ e. e ≡ load.NoMemory };

    fn from(_: NoMemory) -> Self {
        LoadFault::NoMemory
    }
}
