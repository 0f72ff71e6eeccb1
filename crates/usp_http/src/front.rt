//! What stands at the front of bytes.
ghost use Rattle.std.specs.Prelude.{◌≡◌, ◌≤◌, length};
ghost use Rattle.httparse.specs.Spans.{IsRequestOf, IsRequestWithin, RequestOverflows};
ghost use Rattle.usp_http.specs.Fronts.{IsFront};

use crate::head::{Head, head_at};
use crate::limits::{MAX_FIELDS, MAX_HEAD};
use crate::room::{Room, widen};
use httparse::spans::{HeaderSpan, RequestSpans, parse_request};
use httparse::{Error, Status};
use std::alloc::Global;

/// What stands at the front of bytes.
#[derive(Drop)]
pub(crate) enum Front {
    /// A head, and how many bytes it has.
    Whole(Head, usize),
    /// A head with more fields than it may have.
    Many,
    /// No head, but more bytes may make one.
    Unfinished,
    /// No head, whatever follows.
    Bad,
    NoMemory,
}

// Where the fields that a head may have are too few, only a second look tells whether there is a head.
fn front_of_many(alloc: Global, bytes: &[u8], many: &mut Vec<HeaderSpan>) -> Front
    requires short { length bytes.now ≤ MAX_HEAD }
    requires many { RequestOverflows MAX_FIELDS bytes.now }
    ensures { IsFront bytes.now result }
{
    if widen(alloc, many).is_err() {
        return Front::NoMemory;
    }
    match parse_request(bytes, many) {
        Ok(Status::Complete(_)) => Front::Many,
        Ok(Status::Partial) => Front::Unfinished,
        Err(_) => Front::Bad,
    }
}

// The head that was found, where there is memory for its parts.
fn whole_of(alloc: Global, bytes: &[u8], spans: &[HeaderSpan], at: RequestSpans) -> Front
    requires within { IsRequestWithin bytes.now spans.now at }
    requires found { IsRequestOf bytes.now spans.now at }
    requires room { length spans.now ≡ MAX_FIELDS }
    ensures { IsFront bytes.now result }
{
    match head_at(alloc, bytes, spans, at) {
        Ok(head) => Front::Whole(head, at.len),
        Err(_) => Front::NoMemory,
    }
}

/// What stands at the front of the bytes.
pub(crate) fn front_of(alloc: Global, bytes: &[u8], room: &mut Room) -> Front
    requires short { length bytes.now ≤ MAX_HEAD }
    ensures { IsFront bytes.now result }
{
    match parse_request(bytes, &mut room.few) {
        Ok(Status::Complete(at)) => whole_of(alloc, bytes, &room.few, at),
        Ok(Status::Partial) => Front::Unfinished,
        Err(Error::TooManyHeaders) => front_of_many(alloc, bytes, &mut room.many),
        Err(_) => Front::Bad,
    }
}
