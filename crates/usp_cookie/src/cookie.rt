//! A cookie that was set, and the requests that it goes with.
ghost use Rattle.std.specs.Prelude.{◌≡◌, OnOk, Some};
ghost use Rattle.usp_cookie.specs.Jars.{covers, covers_rest, ends_with_slash, is_same, is_sent, is_sent_of, pair_text};
ghost use Rattle.usp_cookie.specs.Joining.{joined, opened};

use crate::NoMemory;
use usp_base::{Octets, after_prefix};

/// A cookie that was set.
#[derive(Drop, Debug)]
pub struct Cookie {
    /// Who set it, and to whom it goes: a host, with `:` and a port where that is not the scheme's own.
    pub authority: Octets,
    pub name: Octets,
    /// The path that it goes with, and all that stand below it.
    pub path: Octets,
    pub value: Octets,
}

/// Where a request goes: the authority, and the path without its query.
#[derive(Clone, Copy)]
pub(crate) struct Target<'a> {
    pub authority: &'a [u8],
    pub path: &'a [u8],
}

pub(crate) fn is_same(a: &Cookie, b: &Cookie) -> bool
    ensures { result ≡ is_same a.now b.now }
{
    a.authority.bytes() == b.authority.bytes()
        && a.name.bytes() == b.name.bytes()
        && a.path.bytes() == b.path.bytes()
}

fn ends_with_slash(text: &[u8]) -> bool
    ensures { result ≡ ends_with_slash text.now }
{
    match text.split_last() {
        Some((last, _)) => *last == b'/',
        None => false,
    }
}

/// Whether a path covers one that it is a prefix of, by what is behind it there (RFC 6265 section 5.1.4).
pub(crate) fn covers_rest(own: &[u8], rest: &[u8]) -> bool
    ensures { result ≡ covers_rest own.now (Some rest.now) }
{
    match rest {
        [] => true,
        [first, ..] => *first == b'/' || ends_with_slash(own),
    }
}

fn covers(own: &[u8], asked: &[u8]) -> bool
    ensures { result ≡ covers own.now asked.now }
{
    match after_prefix(asked, own) {
        Some(rest) => covers_rest(own, rest),
        None => false,
    }
}

fn is_sent(cookie: &Cookie, target: &Target<'_>) -> bool
    ensures { result ≡ is_sent target.now.authority.now target.now.path.now cookie.now }
{
    cookie.authority.bytes() == target.authority && covers(cookie.path.bytes(), target.path)
}

pub(crate) fn is_sent_of(cookie: &Cookie, target: &Target<'_>, size: usize) -> bool
    ensures { result ≡ is_sent_of target.now.authority.now target.now.path.now size cookie.now }
{
    cookie.path.bytes().len() == size && is_sent(cookie, target)
}

// Puts `; ` where a pair stands.
#[tactic(auto, using(crate::proofs::Headers::opened_none, crate::proofs::Headers::opened_some))]
fn open_pair(text: &mut Vec<u8>) -> Result<(), NoMemory>
    ensures { OnOk result (text.new.items ≡ opened text.old.items) }
{
    if !text.is_empty() {
        text.extend_from_slice(b"; ")?;
    }
    Ok(())
}

/// Adds `NAME=VALUE`, behind `; ` where a pair stands before it.
pub(crate) fn push_pair(text: &mut Vec<u8>, cookie: &Cookie) -> Result<(), NoMemory>
    ensures { OnOk result (text.new.items ≡ joined text.old.items (pair_text cookie.now)) }
{
    open_pair(text)?;
    text.extend_from_slice(cookie.name.bytes())?;
    text.push(b'=')?;
    text.extend_from_slice(cookie.value.bytes())?;
    Ok(())
}
