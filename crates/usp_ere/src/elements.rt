//! The elements of a set, read from the left.
ghost use Rattle.std.specs.Prelude.{◌≡◌, ◌+◌, ◌-◌, ◌≤◌, ◌<◌, ◌^◌, drop, length, min, IfOk, IfErr, IfSome, IsTrue, slice_index};
ghost use Rattle.std.specs.List.{find};
ghost use Rattle.usp_ere.specs.SetText.{begins, text_of, class_at, is_collating, makes_range, named_at, range_at, in_set, is_range, elements_at};
ghost use Rattle.usp_ere.specs.Parts.{part_of, IsSetFault};

use crate::class::{Class, Element};
use crate::fault::EreFault;
use crate::place::{place_behind, skip};
use std::alloc::Global;

/// What stands at a place in a set: its end, an element of so many bytes, or a fault.
#[derive(Drop)]
pub enum SetPart {
    Ending,
    Member(Element, usize),
    Wrong(EreFault),
}

/// Whether the class is written at the front of the text.
fn begins_class(text: &[u8], class: Class) -> bool
    ensures { result ≡ begins text.now (text_of class) }
{
    text.starts_with(class.text())
}

/// The first of these classes that is written at the front of the text.
fn class_among(classes: &[Class], text: &[u8]) -> Option<Class>
    ensures { result ≡ find (λ class. begins text.now (text_of class)) classes.now }
{
    classes
        .iter()
        .copied()
        .find(|class| begins_class(text, *class))
}

/// Whether a `[` with the text behind it begins a collating symbol or an equivalence class.
fn begins_collating(text: &[u8]) -> bool
    ensures { result ≡ is_collating text.now }
{
    text.starts_with(b".") || text.starts_with(b"=")
}

/// Whether the text begins with a `-` that makes a range.
fn begins_range(text: &[u8]) -> bool
    ensures { result ≡ makes_range text.now }
{
    text.starts_with(b"-") && !text.starts_with(b"-]") && 1 < text.len()
}

/// A range from a byte, at a place, to what stands behind the `-`.
fn range(at: usize, first: u8, text: &[u8]) -> SetPart
    requires { at < 2 ^ 63 }
    ensures { part_of result ≡ range_at at first text.now }
{
    let Some((last, rest)) = text.split_first() else {
        return SetPart::Wrong(EreFault::Syntax { at });
    };
    let last = *last;
    if last == b'[' && begins_collating(rest) {
        return SetPart::Wrong(EreFault::Undefined { at: at + 2 });
    }
    if last == b'[' && rest.starts_with(b":") {
        return SetPart::Wrong(EreFault::Syntax { at });
    }
    if last < first {
        return SetPart::Wrong(EreFault::Syntax { at });
    }
    SetPart::Member(Element::Range(first, last), 3)
}

/// A class at a place, at the front of the text: no range begins with it.
fn named(at: usize, text: &[u8]) -> SetPart
    ensures { part_of result ≡ named_at at (class_at text.now) text.now }
{
    let Some(class) = class_among(&Class::ALL, text) else {
        return SetPart::Wrong(EreFault::Syntax { at });
    };
    let bytes = class.text().len();
    if begins_range(skip(text, bytes)) {
        return SetPart::Wrong(EreFault::Syntax { at });
    }
    SetPart::Member(Element::Named(class), bytes)
}

/// What stands at a place in a set, that is at the front of the text.
fn part(first: bool, ranged: bool, at: usize, text: &[u8]) -> SetPart
    requires some { 0 < length text.now }
    requires bound { at < 2 ^ 63 }
    ensures { part_of result ≡ in_set first ranged at (slice_index text.now 0) (drop 1 text.now) }
{
    let byte = text[0];
    let rest = &text[1..];
    if byte == b']' && !first {
        return SetPart::Ending;
    }
    if byte == b'-' && ranged && !rest.starts_with(b"]") {
        return SetPart::Wrong(EreFault::Undefined { at });
    }
    if byte == b'[' && begins_collating(rest) {
        return SetPart::Wrong(EreFault::Undefined { at });
    }
    if byte == b'[' && rest.starts_with(b":") {
        return named(at, text);
    }
    if begins_range(rest) {
        return range(at, byte, &rest[1..]);
    }
    SetPart::Member(Element::One(byte), 1)
}

/// The elements of a set of the text that begin at a place, and the place behind its `]`.
pub fn elements(alloc: Global, text: &[u8], from: usize) -> Result<(Vec<Element>, usize), EreFault>
    requires { from ≤ length text.now }
    ensures ok { IfOk result (λ found. elements_at from (drop from text.now) ≡ Ok (found.0.items, found.1)) }
    ensures err { IfErr result (λ fault. IsSetFault (elements_at from (drop from text.now)) fault) }
{
    let mut found = Vec::new(alloc);
    let mut ranged = false;
    let mut at = from;
    while at < text.len() {
        match part(at == from, ranged, at, &text[at..]) {
            SetPart::Ending => return Ok((found, at + 1)),
            SetPart::Wrong(fault) => return Err(fault),
            SetPart::Member(element, bytes) => {
                found.push(element)?;
                ranged = element.is_range();
                at = place_behind(at, bytes, text.len());
            }
        }
    }
    Err(EreFault::Syntax { at })
}
