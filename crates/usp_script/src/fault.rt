//! Why there is no script.
ghost use Rattle.std.specs.Prelude.{◌≡◌};
ghost use Rattle.usp_base.specs.declared.fault.LoadFault.TheVariants as load;
ghost use Rattle.usp_script.specs.declared.fault.ScriptFault.TheVariants.{NoMemory as IsMemory, Unloaded as IsUnloaded};

use crate::memory::NoMemory;
use std::alloc::{AllocError, AllocFailed};
use std::error::Error;
use std::fmt;
use usp_base::LoadFault;

/// Why lines make no script.
#[derive(Clone, Copy, Debug, PartialEq, Eq)]
pub enum ScriptFault {
    /// The line of that number, from 1, is refused. It is the first.
    Line { number: u64 },
    /// The file of an `edge` line could not be loaded.
    Unloaded,
    /// There was no memory.
    NoMemory,
}

impl fmt::Display for ScriptFault {
    fn fmt<W: fmt::Write>(&self, f: &mut fmt::Formatter<W>) -> fmt::Result {
        match self {
            ScriptFault::Line { number } => write!(
                f,
                "line {number} is refused: look at its form, its names and its parts"
            ),
            ScriptFault::Unloaded => write!(
                f,
                "the file of an `edge` line is not there or cannot be read: look at its name and who may read it"
            ),
            ScriptFault::NoMemory => write!(f, "out of memory: try again with more"),
        }
    }
}

impl Error for ScriptFault {}

impl From<NoMemory> for ScriptFault {
    ghost from_gives = { λ _ e. e ≡ IsMemory };

    fn from(_: NoMemory) -> Self {
        ScriptFault::NoMemory
    }
}

impl From<AllocError> for ScriptFault {
    ghost from_gives = { λ _ e. e ≡ IsMemory };

    fn from(_: AllocError) -> Self {
        ScriptFault::NoMemory
    }
}

impl<T: Drop> From<AllocFailed<T>> for ScriptFault {
    ghost from_gives = { λ _ e. e ≡ IsMemory };

    fn from(_: AllocFailed<T>) -> Self {
        ScriptFault::NoMemory
    }
}

impl From<LoadFault> for ScriptFault {
    ghost use Rattle.std.specs.Prelude.{◌≡◌};
    ghost use Rattle.usp_script.specs.Loads.{fault_of};

    ghost from_gives = { λ fault e. e ≡ fault_of fault };

    fn from(fault: LoadFault) -> Self {
        match fault {
            LoadFault::Failed => ScriptFault::Unloaded,
            LoadFault::NoMemory => ScriptFault::NoMemory,
        }
    }
}
