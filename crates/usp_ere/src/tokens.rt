//! The token at a place of the text.
ghost use Rattle.std.specs.Prelude.{◌≡◌, ◌||◌, ◌+◌, ◌≤◌, ◌<◌, drop, length, slice_index, IfOk};
ghost use Rattle.usp_ere.specs.CountText.{counts_at};
ghost use Rattle.usp_ere.specs.Letters.{capital_a, capital_z, small_a, small_z};
ghost use Rattle.usp_ere.specs.Marks.{mark_of};
ghost use Rattle.usp_ere.specs.SetText.{elements_at};
ghost use Rattle.usp_ere.specs.Sets.{between};
ghost use Rattle.usp_ere.specs.Tokens.{bytes_of, counted, escaped, is_letter_or_digit, set_at, set_token, single, token_at};

use crate::bytes::ByteSet;
use crate::counts::counts;
use crate::elements::elements;
use crate::fault::EreFault;
use crate::place::skip;
use crate::set::{is_lower, is_upper};
use crate::tree::{Set, Tree};
use std::alloc::{AllocError, Global};
use usp_base::{Rows, is_digit};

/// A token, with how many bytes it has.
#[derive(Drop)]
pub enum Mark {
    Atom(Tree, usize),
    Anchor(Tree),
    Times(u16, Option<u16>, usize),
    Brace,
    Opening,
    Closing,
    Bar,
    Bad(EreFault),
}

impl Mark {
    pub fn bytes(&self) -> usize
        ensures { result ≡ bytes_of (mark_of self.now) }
    {
        match self {
            Mark::Atom(_, bytes) | Mark::Times(_, _, bytes) => *bytes,
            _ => 1,
        }
    }
}

/// Whether the byte is a letter.
fn is_letter(byte: u8) -> bool
    ensures { result ≡ (between capital_a capital_z byte || between small_a small_z byte) }
{
    is_upper(byte) || is_lower(byte)
}

/// A `\` at a place, with the text behind it.
fn escaped(at: usize, rest: &[u8]) -> Mark
    ensures { mark_of result ≡ escaped at rest.now }
{
    let Some((byte, _)) = rest.split_first() else {
        return Mark::Bad(EreFault::Undefined { at });
    };
    if is_digit(*byte) || is_letter(*byte) {
        return Mark::Bad(EreFault::Undefined { at });
    }
    Mark::Atom(Tree::Byte(*byte), 2)
}

/// A `{`, with the text behind it.
fn counted(rest: &[u8]) -> Mark
    ensures { mark_of result ≡ counted (length rest.now) (counts_at rest.now) }
{
    match counts(rest) {
        None => Mark::Brace,
        Some((least, most, behind)) => Mark::Times(
            least,
            most,
            1 + rest.len().saturating_sub(behind.len()),
        ),
    }
}

/// What a byte is by itself.
fn single(byte: u8) -> Mark
    ensures { mark_of result ≡ single byte }
{
    match byte {
        b'*' => Mark::Times(0, None, 1),
        b'+' => Mark::Times(1, None, 1),
        b'?' => Mark::Times(0, Some(1), 1),
        b'(' => Mark::Opening,
        b')' => Mark::Closing,
        b'|' => Mark::Bar,
        b'^' => Mark::Anchor(Tree::Begin),
        b'$' => Mark::Anchor(Tree::End),
        b'.' => Mark::Atom(Tree::Any, 1),
        _ => Mark::Atom(Tree::Byte(byte), 1),
    }
}

/// The set at a place of the text, whose elements begin at another place.
fn set_from(
    alloc: Global,
    text: &[u8],
    at: usize,
    negated: bool,
    from: usize,
) -> Result<Mark, AllocError>
    requires { from ≤ length text.now }
    ensures { IfOk result (λ mark. mark_of mark ≡ set_token at negated (elements_at from (drop from text.now))) }
{
    match elements(alloc, text, from) {
        Ok((elements, end)) => {
            let set = Set {
                negated,
                bytes: ByteSet::of(negated, &elements),
                elements: Rows::of(elements),
            };
            Ok(Mark::Atom(Tree::OneOf(set), end.saturating_sub(at)))
        }
        Err(EreFault::NoMemory) => Err(AllocError),
        Err(fault) => Ok(Mark::Bad(fault)),
    }
}

/// The set at a place of the text.
fn set(alloc: Global, text: &[u8], at: usize) -> Result<Mark, AllocError>
    requires { at < length text.now }
    ensures { IfOk result (λ mark. mark_of mark ≡ set_at at (drop (at + 1) text.now)) }
{
    if skip(text, at + 1).starts_with(b"^") {
        set_from(alloc, text, at, true, at + 2)
    } else {
        set_from(alloc, text, at, false, at + 1)
    }
}

/// The token at a place of the text.
pub fn mark_at(alloc: Global, text: &[u8], at: usize) -> Result<Mark, AllocError>
    requires { at < length text.now }
    ensures { IfOk result (λ mark. mark_of mark ≡ token_at at (slice_index text.now at) (drop (at + 1) text.now)) }
{
    let rest = skip(text, at + 1);
    match text[at] {
        b'\\' => Ok(escaped(at, rest)),
        b'[' => set(alloc, text, at),
        b'{' => Ok(counted(rest)),
        byte => Ok(single(byte)),
    }
}
