//! Why a text is no URI of this product.

ghost use Rattle.std.specs.Prelude.{◌≡◌, ◌↔◌, true};
ghost use Rattle.usp_uri.specs.declared.fault.UriFault.TheVariants as fault;

use crate::limits::MAX_LEN;
use std::alloc::AllocError;
use std::error::Error;
use std::fmt;

/// Why a text is no URI of this product. Each offset is one of that text.
#[derive(Clone, Copy, Debug, PartialEq, Eq)]
pub enum UriFault {
    /// The text or its normal form is longer than `MAX_LEN`.
    TooLong,
    /// The text does not begin with `http://` or `https://`.
    Scheme,
    /// An `@` stands in the authority.
    Userinfo,
    /// A byte that may not stand here, or a host that is missing here.
    Syntax { at: usize },
    /// The port is no number from 1 to 65,535 without a leading zero.
    Port,
    /// A `%` that two hexadecimal digits do not follow.
    Escape { at: usize },
    /// A `#` follows the authority, the path or the query.
    Fragment,
    /// Memory ran out.
    NoMemory,
}

impl UriFault {
    /// Whether memory ran out, so that nothing is said of the text.
    pub fn is_memory(&self) -> bool
        ensures { (result ≡ true) ↔ (self.now ≡ fault.NoMemory) }
    {
        matches!(self, UriFault::NoMemory)
    }
}

impl fmt::Display for UriFault {
    fn fmt<W: fmt::Write>(&self, f: &mut fmt::Formatter<W>) -> fmt::Result {
        match self {
            UriFault::TooLong => write!(f, "the URI is longer than {MAX_LEN} bytes: shorten it"),
            UriFault::Scheme => write!(f, "begin the URI with http:// or https://"),
            UriFault::Userinfo => write!(f, "take the user name and its @ out of the authority"),
            UriFault::Syntax { at } => {
                write!(
                    f,
                    "byte {at} may not stand there, or the host is missing: escape or mend it"
                )
            }
            UriFault::Port => write!(f, "write the port as a number from 1 to 65535"),
            UriFault::Escape { at } => {
                write!(f, "write two hexadecimal digits behind the % at byte {at}")
            }
            UriFault::Fragment => write!(f, "take the fragment with its # out of the URI"),
            UriFault::NoMemory => write!(f, "memory ran out"),
        }
    }
}

impl Error for UriFault {}

/// Memory ran out.
#[derive(Clone, Copy, Debug, PartialEq, Eq)]
pub struct NoMemory;

impl From<AllocError> for UriFault {
    ghost from_gives = { λ _ found. found ≡ fault.NoMemory };

    fn from(_: AllocError) -> UriFault {
        UriFault::NoMemory
    }
}

impl From<AllocError> for NoMemory {
    fn from(_: AllocError) -> NoMemory {
        NoMemory
    }
}

impl fmt::Display for NoMemory {
    fn fmt<W: fmt::Write>(&self, f: &mut fmt::Formatter<W>) -> fmt::Result {
        write!(f, "memory ran out")
    }
}

impl Error for NoMemory {}
