//! Why a playlist or a map was refused, and why a player stopped.
ghost use Rattle.std.specs.Prelude.{◌≡◌, ◌↔◌, true};

use std::alloc::{AllocError, AllocFailed};
use std::error::Error;
use std::fmt;
use usp_cookie::NoMemory as NoCookieMemory;

/// Why a playlist was refused. Lines count from 1.
#[derive(Clone, Copy, Debug, PartialEq, Eq)]
pub enum ListFault {
    /// It has more than `MAX_PLAYLIST` bytes.
    TooLong,
    /// The sequence that begins at this offset is not UTF-8 (RFC 8216, section 4.1).
    NotUtf8 { at: usize },
    /// The first line is not `#EXTM3U` (RFC 8216, section 4.3.1.1).
    NoHeader,
    /// The target duration is no number up to `MAX_TARGET`, or it is not the first (RFC 8216, section 4.3.3.1).
    BadTarget { line: usize },
    /// The `#EXTINF:` has no duration, or no URI comes before the next one and before the end (RFC 8216,
    /// section 4.3.2.1).
    BadInf { line: usize },
    /// The URI has no `#EXTINF:`.
    NoInf { line: usize },
    /// Segments that are a part of a resource are not played (RFC 8216, section 4.3.2.2).
    ByteRange { line: usize },
    /// The URI is one more than `MAX_SEGMENTS`.
    TooMany { line: usize },
    /// There is no target duration.
    NoTarget,
    NoMemory,
}

impl ListFault {
    ghost use Rattle.usp_player.specs.declared.fault.ListFault.TheVariants.{NoMemory};

    /// Whether there was no memory, so that the same call may succeed later.
    pub fn is_memory(self) -> bool
        ensures { (result ≡ true) ↔ (self ≡ NoMemory) }
    {
        self == ListFault::NoMemory
    }
}

impl fmt::Display for ListFault {
    fn fmt<W: fmt::Write>(&self, f: &mut fmt::Formatter<W>) -> fmt::Result {
        match self {
            ListFault::TooLong => write!(f, "the playlist has more than 4194304 bytes: cut it"),
            ListFault::NotUtf8 { at } => write!(f, "the bytes at {at} are not UTF-8: encode them"),
            ListFault::NoHeader => write!(f, "line 1 is not #EXTM3U: this may be no playlist"),
            ListFault::BadTarget { line } => write!(
                f,
                "line {line}: give one whole target duration below 2^32"
            ),
            ListFault::BadInf { line } => write!(
                f,
                "line {line}: give #EXTINF: a duration in digits, and a URI before the next one"
            ),
            ListFault::NoInf { line } => write!(f, "line {line}: put #EXTINF: before the URI"),
            ListFault::ByteRange { line } => write!(
                f,
                "line {line}: segments that are byte ranges are not played"
            ),
            ListFault::TooMany { line } => write!(
                f,
                "line {line}: the playlist has more than 10000 segments: cut it"
            ),
            ListFault::NoTarget => write!(f, "add #EXT-X-TARGETDURATION: and a number"),
            ListFault::NoMemory => write!(f, "out of memory: try again with more"),
        }
    }
}

impl Error for ListFault {}

impl From<AllocError> for ListFault {
    ghost use Rattle.usp_player.specs.declared.fault.ListFault.TheVariants.{NoMemory};

    ghost from_gives = { λ _ e. e ≡ NoMemory };

    fn from(_: AllocError) -> Self {
        ListFault::NoMemory
    }
}

impl<T: Drop> From<AllocFailed<T>> for ListFault {
    ghost use Rattle.usp_player.specs.declared.fault.ListFault.TheVariants.{NoMemory};

    ghost from_gives = { λ _ e. e ≡ NoMemory };

    fn from(_: AllocFailed<T>) -> Self {
        ListFault::NoMemory
    }
}

/// Why a map was refused. Lines count from 1.
#[derive(Clone, Copy, Debug, PartialEq, Eq)]
pub enum MapFault {
    /// The line is not an authority and an address, parted by one space.
    Line { line: usize },
    NoMemory,
}

impl MapFault {
    ghost use Rattle.usp_player.specs.declared.fault.MapFault.TheVariants.{NoMemory};

    /// Whether there was no memory, so that the same call may succeed later.
    pub fn is_memory(self) -> bool
        ensures { (result ≡ true) ↔ (self ≡ NoMemory) }
    {
        self == MapFault::NoMemory
    }
}

impl fmt::Display for MapFault {
    fn fmt<W: fmt::Write>(&self, f: &mut fmt::Formatter<W>) -> fmt::Result {
        match self {
            MapFault::Line { line } => write!(
                f,
                "line {line}: write an authority, one space and an address, as `h:80 127.0.0.1:80`"
            ),
            MapFault::NoMemory => write!(f, "out of memory: try again with more"),
        }
    }
}

impl Error for MapFault {}

impl From<AllocError> for MapFault {
    ghost use Rattle.usp_player.specs.declared.fault.MapFault.TheVariants.{NoMemory};

    ghost from_gives = { λ _ e. e ≡ NoMemory };

    fn from(_: AllocError) -> Self {
        MapFault::NoMemory
    }
}

impl<T: Drop> From<AllocFailed<T>> for MapFault {
    ghost use Rattle.usp_player.specs.declared.fault.MapFault.TheVariants.{NoMemory};

    ghost from_gives = { λ _ e. e ≡ NoMemory };

    fn from(_: AllocFailed<T>) -> Self {
        MapFault::NoMemory
    }
}

/// Why a player stopped.
#[derive(Clone, Copy, Debug, PartialEq, Eq)]
pub enum PlayFault {
    /// The URI is not UTF-8, or no URL, or one of another scheme than `http` and `https`.
    BadUri,
    /// The map has no place of the URL's authority.
    NoAddress,
    /// The link failed.
    LinkFault,
    /// The answer is no reply.
    BadReply,
    /// The reply has the status 302, and no `Location` field.
    NoLocation,
    /// The request is redirected more than `MAX_REDIRECTIONS` times.
    TooManyHops,
    /// The status is neither 200 nor 302.
    Denied,
    /// The body of the first URI is no playlist.
    List(ListFault),
    NoMemory,
}

impl PlayFault {
    ghost use Rattle.usp_player.specs.declared.fault.PlayFault.TheVariants.{NoMemory};

    /// Whether there was no memory, so that the same call may succeed later.
    pub fn is_memory(self) -> bool
        ensures { (result ≡ true) ↔ (self ≡ NoMemory) }
    {
        self == PlayFault::NoMemory
    }
}

impl fmt::Display for PlayFault {
    fn fmt<W: fmt::Write>(&self, f: &mut fmt::Formatter<W>) -> fmt::Result {
        match self {
            PlayFault::BadUri => write!(f, "give a URI of http or https, in UTF-8"),
            PlayFault::NoAddress => write!(f, "add a line of the URI's authority to the map"),
            PlayFault::LinkFault => write!(
                f,
                "the link failed: look at the server, and at the map"
            ),
            PlayFault::BadReply => write!(
                f,
                "no reply of HTTP/1 with one Content-Length and a body of that length: look at the server"
            ),
            PlayFault::NoLocation => write!(f, "a 302 without a Location: look at the server"),
            PlayFault::TooManyHops => write!(
                f,
                "a request was redirected more than 5 times: look for a circle"
            ),
            PlayFault::Denied => write!(f, "the status is neither 200 nor 302: look at the token"),
            PlayFault::List(fault) => write!(f, "the playlist: {fault}"),
            PlayFault::NoMemory => write!(f, "out of memory: try again with more"),
        }
    }
}

impl Error for PlayFault {}

impl From<AllocError> for PlayFault {
    ghost use Rattle.usp_player.specs.declared.fault.PlayFault.TheVariants.{NoMemory};

    ghost from_gives = { λ _ e. e ≡ NoMemory };

    fn from(_: AllocError) -> Self {
        PlayFault::NoMemory
    }
}

impl<T: Drop> From<AllocFailed<T>> for PlayFault {
    ghost use Rattle.usp_player.specs.declared.fault.PlayFault.TheVariants.{NoMemory};

    ghost from_gives = { λ _ e. e ≡ NoMemory };

    fn from(_: AllocFailed<T>) -> Self {
        PlayFault::NoMemory
    }
}

impl From<NoCookieMemory> for PlayFault {
    ghost use Rattle.usp_player.specs.declared.fault.PlayFault.TheVariants.{NoMemory};

    ghost from_gives = { λ _ e. e ≡ NoMemory };

    fn from(_: NoCookieMemory) -> Self {
        PlayFault::NoMemory
    }
}

impl From<ListFault> for PlayFault {
    ghost use Rattle.usp_player.specs.Faults.{IsListFault};

    ghost from_gives = { λ list e. IsListFault list e };

    fn from(fault: ListFault) -> Self {
        match fault {
            ListFault::NoMemory => PlayFault::NoMemory,
            fault => PlayFault::List(fault),
        }
    }
}
