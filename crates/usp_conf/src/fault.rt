//! Why a text is no configuration.
ghost use Rattle.std.specs.Prelude.{◌≡◌, ◌↔◌, IsTrue};
ghost use Rattle.usp_conf.specs.declared.fault.ConfFault.TheVariants.{NoMemory as IsMemory};

use crate::Member;
use std::alloc::{AllocError, AllocFailed};
use std::error::Error;
use std::fmt;
use usp_json::Text;
use usp_jws::{MAX_SECRET, MIN_SECRET};

/// Why a text is no configuration. The first row that fails is named.
#[derive(Debug, Drop)]
pub enum ConfFault {
    /// The text is no JSON: `serde_json` has no reading of it.
    Json,
    /// The member is not there.
    Missing { member: Member },
    /// The member, or an element of that list, is of another kind.
    Kind { member: Member },
    /// The member, or an element of that list, is of its kind and out of its range.
    Range { member: Member },
    /// The secret of the key of this name has fewer than [`usp_jws::MIN_SECRET`] bytes (RFC 7518 section 3.2).
    ShortKey { kid: Text },
    /// Two keys have one name, or two extensions are of one claim.
    Repeat { member: Member },
    /// There was no memory.
    NoMemory,
}

impl ConfFault {
    /// Whether there was no memory, so that the same text may be read later.
    pub fn is_memory(&self) -> bool
        ensures { IsTrue result ↔ self.now ≡ IsMemory }
    {
        matches!(self, ConfFault::NoMemory)
    }
}

// What must stand at a member, with how much of it.
#[derive(Drop)]
struct Form(Member);

impl fmt::Display for Form {
    fn fmt<W: fmt::Write>(&self, f: &mut fmt::Formatter<W>) -> fmt::Result {
        let text = self.0.form();
        match self.0 {
            Member::Secret => write!(f, "{text}, {MIN_SECRET} to {MAX_SECRET} of them"),
            _ => write!(f, "{text}"),
        }
    }
}

impl fmt::Display for ConfFault {
    fn fmt<W: fmt::Write>(&self, f: &mut fmt::Formatter<W>) -> fmt::Result {
        match self {
            ConfFault::Json => write!(f, "the configuration must be JSON, in UTF-8"),
            ConfFault::Missing { member } => {
                write!(f, "`{}` must be there: {}", member.name(), Form(*member))
            }
            ConfFault::Kind { member } => {
                write!(
                    f,
                    "`{}` is of another kind: write {}",
                    member.name(),
                    Form(*member)
                )
            }
            ConfFault::Range { member } => {
                write!(
                    f,
                    "`{}` is out of its range: write {}",
                    member.name(),
                    Form(*member)
                )
            }
            ConfFault::ShortKey { kid } => write!(
                f,
                "the key `{}` needs a secret of at least {MIN_SECRET} random bytes",
                kid.text()
            ),
            ConfFault::Repeat { member } => write!(
                f,
                "`{}` stands twice: give each key a name and each extension a claim of its own",
                member.name()
            ),
            ConfFault::NoMemory => write!(f, "there was no memory: try again with more"),
        }
    }
}

impl Error for ConfFault {}

impl From<AllocError> for ConfFault {
    ghost from_gives = { λ _ e. e ≡ IsMemory };

    fn from(_: AllocError) -> Self {
        ConfFault::NoMemory
    }
}

impl<T: Drop> From<AllocFailed<T>> for ConfFault {
    ghost from_gives = { λ _ e. e ≡ IsMemory };

    fn from(_: AllocFailed<T>) -> Self {
        ConfFault::NoMemory
    }
}

impl From<usp_jws::NoMemory> for ConfFault {
    ghost from_gives = { λ _ e. e ≡ IsMemory };

    fn from(_: usp_jws::NoMemory) -> Self {
        ConfFault::NoMemory
    }
}

impl From<usp_json::NoMemory> for ConfFault {
    ghost from_gives = { λ _ e. e ≡ IsMemory };

    fn from(_: usp_json::NoMemory) -> Self {
        ConfFault::NoMemory
    }
}
