//! Replies, as a player hears them.
ghost use Rattle.std.specs.Prelude.{◌≡◌, ◌≤◌, ◌↔◌, All, Some, length, map, drop, codes, true, IfOk};
ghost use Rattle.httparse.specs.Grammar.{ResponseHead};
ghost use Rattle.httparse.specs.Spans.{IsHeaderWithin, IsResponseAt, IsResponseWithin, header_bytes};
ghost use Rattle.usp_http.specs.Digits.{number_in};
ghost use Rattle.usp_http.specs.Fields.{first_of, values_of};
ghost use Rattle.usp_http.specs.Hearing.{AnswersHead, AnswersReply};
ghost use Rattle.usp_http.specs.declared.heard.HeardFault.TheVariants.{NoMemory as IsMemory};
ghost use Rattle.usp_http.specs.declared.limits.TheConstants.{MAX_FIELDS};

use crate::NoMemory;
use crate::digits::read_digits;
use crate::fields::{first_in, only_in, values_in};
use crate::limits::{MAX_FIELDS, MAX_HEAD};
use httparse::Status;
use httparse::spans::{EMPTY_HEADER_SPAN, HeaderSpan, ResponseSpans, parse_response};
use std::alloc::{AllocError, Global};
use std::error::Error;
use std::fmt;
use usp_base::{Octets, Rows};

/// A reply, as a player hears it.
#[derive(Drop, Debug)]
pub struct Heard {
    /// The status code (RFC 9110, section 15).
    pub status: u16,
    /// The value of the first `Location` field (RFC 9110, section 10.2.2).
    pub location: Option<Octets>,
    /// The values of the `Set-Cookie` fields, in order (RFC 6265, section 4.1).
    pub cookies: Rows<Octets>,
    pub body: Octets,
}

/// Why a reply was not heard.
#[derive(Clone, Copy, Debug, PartialEq, Eq)]
pub enum HeardFault {
    /// The bytes are no head of at most `MAX_FIELDS` fields and `MAX_HEAD` bytes with one `Content-Length`, and a body
    /// of that length.
    BadReply,
    NoMemory,
}

impl HeardFault {
    /// Whether there was no memory, so that the same call may succeed later.
    pub fn is_memory(self) -> bool
        ensures { (result ≡ true) ↔ (self ≡ IsMemory) }
    {
        self == HeardFault::NoMemory
    }
}

impl fmt::Display for HeardFault {
    fn fmt<W: fmt::Write>(&self, f: &mut fmt::Formatter<W>) -> fmt::Result {
        match self {
            HeardFault::BadReply => write!(
                f,
                "no reply of HTTP/1 with one Content-Length and a body of that length: look at the server"
            ),
            HeardFault::NoMemory => write!(f, "out of memory: try again with more"),
        }
    }
}

impl Error for HeardFault {}

impl From<NoMemory> for HeardFault {
    ghost from_gives = { λ _ e. e ≡ IsMemory };

    fn from(_: NoMemory) -> Self {
        HeardFault::NoMemory
    }
}

impl From<AllocError> for HeardFault {
    ghost from_gives = { λ _ e. e ≡ IsMemory };

    fn from(_: AllocError) -> Self {
        HeardFault::NoMemory
    }
}

// The value of the first `Location` field.
fn location_in(
    alloc: Global,
    bytes: &[u8],
    spans: &[HeaderSpan],
) -> Result<Option<Octets>, NoMemory>
    requires { All (IsHeaderWithin (length bytes.now)) spans.now }
    ensures { IfOk result (λ value. value
        ≡ first_of (values_of (codes "location") (map (header_bytes bytes.now) spans.now))) }
{
    match first_in(bytes, spans, b"location") {
        Some(value) => Ok(Some(Octets::of(Vec::from_slice(alloc, value)?))),
        None => Ok(None),
    }
}

// The text spells the length of the body.
#[tactic(auto, using(crate::proofs::Spelling::same_of_most, crate::proofs::Spelling::most_of_same))]
fn is_length_of(text: &[u8], body: &[u8]) -> bool
    ensures { (result ≡ true) ↔ (number_in text.now ≡ Some (length body.now)) }
{
    let length = body.len() as u64;
    read_digits(text, length) == Some(length)
}

// The reply with the head that was found at the front of the bytes.
fn heard_at(
    alloc: Global,
    bytes: &[u8],
    spans: &[HeaderSpan],
    at: ResponseSpans,
) -> Result<Heard, HeardFault>
    requires within { IsResponseWithin bytes.now spans.now at }
    ensures { (head : ResponseHead) → IsResponseAt bytes.now spans.now at head
        → AnswersHead head (drop at.len bytes.now) result }
{
    if at.len > MAX_HEAD {
        return Err(HeardFault::BadReply);
    }
    let fields = &spans[..at.headers];
    let body = bytes.split_at(at.len).1;
    if !is_length_of(only_in(bytes, fields, b"content-length"), body) {
        return Err(HeardFault::BadReply);
    }
    Ok(Heard {
        status: at.code,
        location: location_in(alloc, bytes, fields)?,
        cookies: Rows::of(values_in(alloc, bytes, fields, b"set-cookie")?),
        body: Octets::of(Vec::from_slice(alloc, body)?),
    })
}

// The reply, read with room for so many fields.
fn reply_with(alloc: Global, bytes: &[u8], spans: &mut [HeaderSpan]) -> Result<Heard, HeardFault>
    requires { length spans.old ≡ MAX_FIELDS }
    ensures { AnswersReply bytes.now result }
{
    match parse_response(bytes, spans) {
        Ok(Status::Complete(at)) => heard_at(alloc, bytes, spans, at),
        Ok(Status::Partial) => Err(HeardFault::BadReply),
        Err(_) => Err(HeardFault::BadReply),
    }
}

/// Reads a whole reply (RFC 9112, section 6): a head of at most `MAX_FIELDS` fields and `MAX_HEAD` bytes with one
/// `Content-Length`, and a body of that length.
///
/// ```
/// let heard = read_reply(alloc, b"HTTP/1.1 200 OK\r\nContent-Length: 2\r\n\r\nok")?;
/// // heard.status is 200, and heard.body is b"ok"
/// ```
pub fn read_reply(alloc: Global, bytes: &[u8]) -> Result<Heard, HeardFault>
    ensures { AnswersReply bytes.now result }
{
    let mut spans = [EMPTY_HEADER_SPAN; MAX_FIELDS];
    reply_with(alloc, bytes, &mut spans)
}
