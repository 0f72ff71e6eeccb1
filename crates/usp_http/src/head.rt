//! The head of a request.
ghost use Rattle.std.specs.Prelude.{◌≡◌, ◌||◌, ◌==◌, ◌≤◌, map, take, length, IfOk, All, List};
ghost use Rattle.httparse.specs.Grammar.{RequestHead};
ghost use Rattle.httparse.specs.Spans.{IsRequestAt, IsRequestWithin};
ghost use Rattle.usp_http.specs.Heads.{head_of, method_of};

use crate::fields::{announces_body, closes, only_in, values_in};
use httparse::spans::{HeaderSpan, RequestSpans};
use std::alloc::{AllocError, AllocFailed, Global};
use std::error::Error;
use std::fmt;
use usp_base::{Octets, Rows};

/// There is no memory left.
#[derive(Clone, Copy, Debug, PartialEq, Eq)]
pub struct NoMemory;

impl fmt::Display for NoMemory {
    fn fmt<W: fmt::Write>(&self, f: &mut fmt::Formatter<W>) -> fmt::Result {
        write!(f, "out of memory: try again with more")
    }
}

impl Error for NoMemory {}

impl From<AllocError> for NoMemory {
    fn from(_: AllocError) -> Self {
        NoMemory
    }
}

impl<T: Drop> From<AllocFailed<T>> for NoMemory {
    fn from(_: AllocFailed<T>) -> Self {
        NoMemory
    }
}

/// The method of a request (RFC 9110, section 9).
#[derive(Clone, Copy, Debug, PartialEq, Eq)]
pub enum Method {
    /// `GET`.
    Get,
    /// `HEAD`, whose reply has no body.
    Bare,
    /// Any other, also `get`: methods are compared as they are spelled.
    Other,
}

/// What an edge takes of the head of a request.
#[derive(Drop, Debug)]
pub struct Head {
    pub method: Method,
    /// The target as it was sent (RFC 9112, section 3.2).
    pub target: Octets,
    /// The value of the only `Host` field, and empty where there is none or more than one.
    pub host: Octets,
    /// The values of the `Cookie` fields, in order (RFC 6265, section 4.2).
    pub cookies: Rows<Octets>,
    /// No request follows on this connection (RFC 9112, section 9.3).
    pub last: bool,
    /// A body is announced (RFC 9112, section 6).
    pub body: bool,
}

fn method_of(text: &[u8]) -> Method
    ensures { result ≡ method_of text.now }
{
    if text == b"GET".as_slice() {
        Method::Get
    } else if text == b"HEAD".as_slice() {
        Method::Bare
    } else {
        Method::Other
    }
}

/// The head that was found at the front of the bytes.
pub(crate) fn head_at(
    alloc: Global,
    bytes: &[u8],
    spans: &[HeaderSpan],
    at: RequestSpans,
) -> Result<Head, NoMemory>
    requires within { IsRequestWithin bytes.now spans.now at }
    ensures { (h : RequestHead) → IsRequestAt bytes.now spans.now at h → IfOk result (λ head. head ≡ head_of h) }
{
    let fields = &spans[..at.headers];
    Ok(Head {
        method: method_of(at.method.of(bytes)),
        target: Octets::of(Vec::from_slice(alloc, at.path.of(bytes))?),
        host: Octets::of(Vec::from_slice(alloc, only_in(bytes, fields, b"host"))?),
        cookies: Rows::of(values_in(alloc, bytes, fields, b"cookie")?),
        last: at.version == 0 || closes(bytes, fields),
        body: announces_body(bytes, fields),
    })
}
