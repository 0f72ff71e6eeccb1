//! Why there are no claims.

ghost use Rattle.std.specs.Prelude.{◌≡◌, ◌↔◌, true};

use crate::{ClaimName, MAX_NUMBER, MAX_PAYLOAD, MAX_PERIOD};
use std::error::Error;
use std::fmt;
use usp_json::JsonFault;

/// There was no memory.
#[derive(Clone, Copy, Debug, PartialEq, Eq)]
pub struct NoMemory;

impl fmt::Display for NoMemory {
    fn fmt<W: fmt::Write>(&self, f: &mut fmt::Formatter<W>) -> fmt::Result {
        write!(f, "out of memory")
    }
}

impl Error for NoMemory {}

impl From<usp_json::NoMemory> for NoMemory {
    ghost from_gives = { λ _ e. Unit {0} };

    fn from(_: usp_json::NoMemory) -> Self {
        NoMemory
    }
}

/// Why a payload has no claim set. The first that applies is named.
#[derive(Clone, Copy, Debug, PartialEq, Eq)]
pub enum ClaimFault {
    /// The payload has more than `MAX_PAYLOAD` bytes.
    TooLong,
    /// The payload is no JSON object within the limits; never for want of memory.
    Json(JsonFault),
    /// The claim, the first in the order of the table that fails, is not of its kind.
    Kind { name: ClaimName },
    /// The claim, the first in the order of the table that fails, is of its kind and out of its range.
    Range { name: ClaimName },
    /// There is no `cdniuc`.
    NoContainer,
    /// There was no memory.
    NoMemory,
}

impl ClaimFault {
    /// Whether this is want of memory, which says nothing of the payload.
    pub fn is_memory(self) -> bool
        ensures { (result ≡ true) ↔ (self ≡ ClaimFault.NoMemory) }
    {
        matches!(self, ClaimFault::NoMemory)
    }
}

impl fmt::Display for ClaimFault {
    fn fmt<W: fmt::Write>(&self, f: &mut fmt::Formatter<W>) -> fmt::Result {
        match self {
            ClaimFault::TooLong => {
                write!(
                    f,
                    "more than {MAX_PAYLOAD} bytes of claims: sign fewer of them"
                )
            }
            ClaimFault::Json(fault) => write!(f, "{fault}"),
            ClaimFault::Kind { name } => {
                write!(
                    f,
                    "`{}` is not of its kind: see the table of claims",
                    name.name()
                )
            }
            ClaimFault::Range { name } => {
                write!(
                    f,
                    "`{}` is out of its range: write digits alone, at most {MAX_NUMBER}, or {MAX_PERIOD} for a period",
                    name.name()
                )
            }
            ClaimFault::NoContainer => write!(f, "no `cdniuc`: add the container of the URI"),
            ClaimFault::NoMemory => write!(f, "out of memory"),
        }
    }
}

impl Error for ClaimFault {}

impl From<usp_json::NoMemory> for ClaimFault {
    ghost use Rattle.std.specs.Prelude.{◌≡◌};
    ghost use Rattle.usp_claims.specs.declared.fault.ClaimFault.TheVariants.{NoMemory as NoClaimMemory};

    ghost from_gives = { λ _ e. e ≡ NoClaimMemory };

    fn from(_: usp_json::NoMemory) -> Self {
        ClaimFault::NoMemory
    }
}

impl From<JsonFault> for ClaimFault {
    ghost use Rattle.std.specs.Prelude.{◌≡◌};
    ghost use Rattle.usp_claims.specs.Faults.{json_fault};

    ghost from_gives = { λ fault e. e ≡ json_fault fault };

    fn from(fault: JsonFault) -> Self {
        match fault {
            JsonFault::NoMemory => ClaimFault::NoMemory,
            other => ClaimFault::Json(other),
        }
    }
}
