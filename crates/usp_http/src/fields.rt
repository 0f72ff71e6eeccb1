//! What the fields of a head say.
ghost use Rattle.std.specs.Prelude.{◌≡◌, ◌≤◌, ◌==◌, All, length, map, codes, IfOk};
ghost use Rattle.std.specs.List.{list_any};
ghost use Rattle.std.specs.Option.{option_copied};
ghost use Rattle.std.specs.Str.{str_eq_ignore_ascii_case};
ghost use Rattle.httparse.specs.Spans.{IsHeaderWithin, header_bytes};
ghost use Rattle.usp_http.specs.Fields.{first_of, has_close, is_close, is_closing, is_named, is_of_body, only, values_of};

use crate::NoMemory;
use httparse::spans::HeaderSpan;
use std::alloc::Global;
use usp_base::{Octets, trim_blanks};

fn is_same_name(a: &[u8], b: &[u8]) -> bool
    ensures { result ≡ str_eq_ignore_ascii_case a.now b.now }
{
    a.eq_ignore_ascii_case(b)
}

fn is_close(part: &[u8]) -> bool
    ensures { result ≡ is_close part.now }
{
    is_same_name(trim_blanks(part), b"close")
}

fn has_close(value: &[u8]) -> bool
    ensures { result ≡ has_close value.now }
{
    value.split(|b| *b == b',').any(is_close)
}

fn is_closing(bytes: &[u8], span: &HeaderSpan) -> bool
    requires { IsHeaderWithin (length bytes.now) span.now }
    ensures { result ≡ is_closing (header_bytes bytes.now span.now) }
{
    is_same_name(span.name.of(bytes), b"connection") && has_close(span.value.of(bytes))
}

fn is_of_body(bytes: &[u8], span: &HeaderSpan) -> bool
    requires { IsHeaderWithin (length bytes.now) span.now }
    ensures { result ≡ is_of_body (header_bytes bytes.now span.now) }
{
    let name = span.name.of(bytes);
    is_same_name(name, b"transfer-encoding")
        || is_same_name(name, b"content-length") && span.value.of(bytes) != b"0".as_slice()
}

/// A field asks to close the connection behind the reply.
pub(crate) fn closes(bytes: &[u8], spans: &[HeaderSpan]) -> bool
    requires { All (IsHeaderWithin (length bytes.now)) spans.now }
    ensures { result ≡ list_any is_closing (map (header_bytes bytes.now) spans.now) }
{
    for span in spans {
        if is_closing(bytes, span) {
            return true;
        }
    }
    false
}

/// A field announces a body.
pub(crate) fn announces_body(bytes: &[u8], spans: &[HeaderSpan]) -> bool
    requires { All (IsHeaderWithin (length bytes.now)) spans.now }
    ensures { result ≡ list_any is_of_body (map (header_bytes bytes.now) spans.now) }
{
    for span in spans {
        if is_of_body(bytes, span) {
            return true;
        }
    }
    false
}

/// The value of the only field of that name. Nothing where there is none or more than one.
#[tactic(auto, using(crate::proofs::Hosts::host_first, crate::proofs::Hosts::host_found))]
pub(crate) fn only_in<'b>(bytes: &'b [u8], spans: &[HeaderSpan], name: &[u8]) -> &'b [u8]
    requires { All (IsHeaderWithin (length bytes.now)) spans.now }
    ensures { result.now ≡ only (values_of name.now (map (header_bytes bytes.now) spans.now)) }
{
    let mut value: &[u8] = b"";
    let mut found = false;
    for span in spans {
        if is_same_name(span.name.of(bytes), name) {
            if found {
                return b"";
            }
            value = span.value.of(bytes);
            found = true;
        }
    }
    value
}

/// The value of the first field of that name.
pub(crate) fn first_in<'b>(bytes: &'b [u8], spans: &[HeaderSpan], name: &[u8]) -> Option<&'b [u8]>
    requires { All (IsHeaderWithin (length bytes.now)) spans.now }
    ensures { option_copied result
        ≡ first_of (values_of name.now (map (header_bytes bytes.now) spans.now)) }
{
    for span in spans {
        if is_same_name(span.name.of(bytes), name) {
            return Some(span.value.of(bytes));
        }
    }
    None
}

/// The values of the fields of that name, in order.
pub(crate) fn values_in(
    alloc: Global,
    bytes: &[u8],
    spans: &[HeaderSpan],
    name: &[u8],
) -> Result<Vec<Octets>, NoMemory>
    requires { All (IsHeaderWithin (length bytes.now)) spans.now }
    ensures { IfOk result (λ values. values.items
        ≡ values_of name.now (map (header_bytes bytes.now) spans.now)) }
{
    let mut values = Vec::new(alloc);
    for span in spans {
        if is_same_name(span.name.of(bytes), name) {
            let value = Vec::from_slice(alloc, span.value.of(bytes))?;
            values.push(Octets::of(value))?;
        }
    }
    Ok(values)
}
