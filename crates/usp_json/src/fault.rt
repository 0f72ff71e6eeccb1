//! Why a text is refused.

ghost use Rattle.std.specs.Prelude.{◌≡◌, ◌↔◌, true};

use crate::{MAX_LEVELS, MAX_MEMBERS, NoMemory};
use std::alloc::AllocError;
use std::error::Error;
use std::fmt;

/// Why a text is no JSON object within the limits. `at` is the offset of the first byte with which no continuation
/// is one, or the text's length where each byte could be continued.
#[derive(Clone, Copy, Debug, PartialEq, Eq)]
pub enum JsonFault {
    /// Any other case.
    Syntax { at: usize },
    /// The closing quote of a name that its object already has.
    Duplicate { at: usize },
    /// A bracket that would begin a level above `MAX_LEVELS`.
    Deep { at: usize },
    /// The comma after the last of `MAX_MEMBERS` members of an object.
    Many { at: usize },
    /// There was no memory.
    NoMemory,
}

impl JsonFault {
    /// Whether this is want of memory, which says nothing of the text.
    pub fn is_memory(self) -> bool
        ensures { (result ≡ true) ↔ (self ≡ JsonFault.NoMemory) }
    {
        matches!(self, JsonFault::NoMemory)
    }
}

impl fmt::Display for JsonFault {
    fn fmt<W: fmt::Write>(&self, f: &mut fmt::Formatter<W>) -> fmt::Result {
        match self {
            JsonFault::Syntax { at } => {
                write!(
                    f,
                    "no JSON object: it goes wrong, or ends, at byte {at}, counted from 0"
                )
            }
            JsonFault::Duplicate { at } => {
                write!(
                    f,
                    "a name stands twice in its object: take out the one that ends at byte {at}"
                )
            }
            JsonFault::Deep { at } => {
                write!(f, "more than {MAX_LEVELS} levels: nest less at byte {at}")
            }
            JsonFault::Many { at } => {
                write!(
                    f,
                    "more than {MAX_MEMBERS} members: end the object at byte {at}"
                )
            }
            JsonFault::NoMemory => write!(f, "out of memory"),
        }
    }
}

impl Error for JsonFault {}

impl From<AllocError> for JsonFault {
    ghost use Rattle.std.specs.Prelude.{◌≡◌};
    ghost use Rattle.usp_json.specs.declared.fault.JsonFault.TheVariants.{NoMemory};

    ghost from_gives = { λ _ e. e ≡ NoMemory };

    fn from(_: AllocError) -> Self {
        JsonFault::NoMemory
    }
}

impl From<NoMemory> for JsonFault {
    ghost use Rattle.std.specs.Prelude.{◌≡◌};
    ghost use Rattle.usp_json.specs.declared.fault.JsonFault.TheVariants.{NoMemory as NoTextMemory};

    ghost from_gives = { λ _ e. e ≡ NoTextMemory };

    fn from(_: NoMemory) -> Self {
        JsonFault::NoMemory
    }
}
