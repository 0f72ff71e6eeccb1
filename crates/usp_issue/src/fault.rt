//! Why a content is not signed for a route.

ghost use Rattle.std.specs.Prelude.{◌≡◌, ◌↔◌, true};
ghost use Rattle.usp_issue.specs.declared.fault.IssueFault.TheVariants as fault;

use std::error::Error;
use std::fmt;
use usp_claims::Claims;
use usp_uri::MAX_LEN;

/// Why a content is not signed for a route. The first that applies is named.
#[derive(Clone, Copy, Debug, PartialEq, Eq)]
pub enum IssueFault {
    /// The target, or the location, is longer than a URI may be.
    TooLong,
    /// The target has a package, which may be a bad one.
    Present,
    /// Memory ran out.
    NoMemory,
}

impl IssueFault {
    /// Whether memory ran out, so that nothing is said of the content.
    pub fn is_memory(&self) -> bool
        ensures { (result ≡ true) ↔ (self.now ≡ fault.NoMemory) }
    {
        matches!(self, IssueFault::NoMemory)
    }
}

impl fmt::Display for IssueFault {
    fn fmt<W: fmt::Write>(&self, f: &mut fmt::Formatter<W>) -> fmt::Result {
        match self {
            IssueFault::TooLong => {
                write!(
                    f,
                    "the URI with its token is longer than {MAX_LEN} bytes: shorten it"
                )
            }
            IssueFault::Present => write!(f, "the URI has a token already: take it out"),
            IssueFault::NoMemory => write!(f, "memory ran out"),
        }
    }
}

impl Error for IssueFault {}

/// Memory ran out.
#[derive(Clone, Copy, Debug, PartialEq, Eq)]
pub struct NoMemory;

impl fmt::Display for NoMemory {
    fn fmt<W: fmt::Write>(&self, f: &mut fmt::Formatter<W>) -> fmt::Result {
        write!(f, "memory ran out")
    }
}

impl Error for NoMemory {}

impl From<usp_json::NoMemory> for NoMemory {
    fn from(_: usp_json::NoMemory) -> NoMemory {
        NoMemory
    }
}

impl From<usp_claims::NoMemory> for NoMemory {
    fn from(_: usp_claims::NoMemory) -> NoMemory {
        NoMemory
    }
}

// The claims that could not be changed are given up.
impl From<(Claims, usp_claims::NoMemory)> for NoMemory {
    fn from(_: (Claims, usp_claims::NoMemory)) -> NoMemory {
        NoMemory
    }
}

impl From<usp_jws::NoMemory> for NoMemory {
    fn from(_: usp_jws::NoMemory) -> NoMemory {
        NoMemory
    }
}

impl From<usp_package::NoMemory> for NoMemory {
    fn from(_: usp_package::NoMemory) -> NoMemory {
        NoMemory
    }
}

impl From<usp_rules::NoMemory> for NoMemory {
    fn from(_: usp_rules::NoMemory) -> NoMemory {
        NoMemory
    }
}

impl From<NoMemory> for IssueFault {
    ghost from_gives = { λ _ found. found ≡ fault.NoMemory };

    fn from(_: NoMemory) -> IssueFault {
        IssueFault::NoMemory
    }
}
