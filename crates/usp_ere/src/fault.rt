//! Why a text is no expression.
ghost use Rattle.std.specs.Prelude.{◌≡◌, ◌↔◌, true};

use crate::limits::{MAX_COUNT, MAX_SIZE};
use std::alloc::{AllocError, AllocFailed};
use std::error::Error;
use std::fmt;

/// Why a text is no expression. `at` is an offset from 0 into the text.
#[derive(Clone, Copy, Debug, PartialEq, Eq)]
pub enum EreFault {
    /// A group, a set, a range, a class or a repeat that is not spelled as one.
    Syntax { at: usize },
    /// What the standard leaves undefined, or a byte outside 0x20 to 0x7e.
    Undefined { at: usize },
    /// A repeat whose counts are out of order or above `MAX_COUNT`.
    Repeat { at: usize },
    /// More than `MAX_SIZE` nodes.
    TooLarge,
    /// There was no memory.
    NoMemory,
}

impl EreFault {
    ghost use Rattle.usp_ere.specs.Faults.{place_of};

    /// Whether this is want of memory, which says nothing of the text.
    pub fn is_memory(&self) -> bool
        ensures { (result ≡ true) ↔ (self.now ≡ EreFault.NoMemory) }
    {
        matches!(self, EreFault::NoMemory)
    }

    /// The place of the fault, and 0 where it has none.
    pub fn place(&self) -> usize
        ensures { result ≡ place_of self.now }
    {
        match self {
            EreFault::Syntax { at } | EreFault::Undefined { at } | EreFault::Repeat { at } => *at,
            EreFault::TooLarge | EreFault::NoMemory => 0,
        }
    }
}

impl fmt::Display for EreFault {
    fn fmt<W: fmt::Write>(&self, f: &mut fmt::Formatter<W>) -> fmt::Result {
        match self {
            EreFault::Syntax { at } => write!(
                f,
                "a group, set, range, class or repeat is not whole: complete or escape it at byte {at}, counted from 0"
            ),
            EreFault::Undefined { at } => write!(
                f,
                "POSIX gives no meaning to byte {at}, counted from 0: write it in another way"
            ),
            EreFault::Repeat { at } => write!(
                f,
                "the counts at byte {at}, counted from 0, are out of order or above {MAX_COUNT}: lower them"
            ),
            EreFault::TooLarge => write!(
                f,
                "more than {MAX_SIZE} nodes: lower the counts of its repeats, or shorten it"
            ),
            EreFault::NoMemory => write!(f, "out of memory: try again with more"),
        }
    }
}

impl Error for EreFault {}

impl From<AllocError> for EreFault {
    ghost use Rattle.usp_ere.specs.declared.fault.EreFault.TheVariants.{NoMemory};

    ghost from_gives = { λ _ e. e ≡ NoMemory };

    fn from(_: AllocError) -> EreFault {
        EreFault::NoMemory
    }
}

impl<T: Drop> From<AllocFailed<T>> for EreFault {
    ghost use Rattle.usp_ere.specs.declared.fault.EreFault.TheVariants.{NoMemory};

    ghost from_gives = { λ _ e. e ≡ NoMemory };

    fn from(_: AllocFailed<T>) -> EreFault {
        EreFault::NoMemory
    }
}
