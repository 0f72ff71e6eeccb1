//! The cookie that a Set-Cookie field sets.
ghost use Rattle.std.specs.Prelude.{◌≡◌, ◌∷◌, [], reverse, IfOk};
ghost use Rattle.std.specs.Option.{option_map};
ghost use Rattle.usp_cookie.specs.SetCookies.{attribute_of, attributes_in, begins_with_slash, behind_slash, cookie_of, folder_of, last_or, last_path, pair_of, parted, path_of, paths_in};

use crate::NoMemory;
use crate::cookie::Cookie;
use std::alloc::Global;
use usp_base::{Octets, cut_at, trim_blanks};

fn pair_of(part: &[u8]) -> Option<(&[u8], &[u8])>
    ensures { option_map (λ pair. (pair.0.now, pair.1.now)) result ≡ pair_of part.now }
{
    let (name, value) = cut_at(part, b'=')?;
    Some((trim_blanks(name), trim_blanks(value)))
}

fn attribute_of(part: &[u8]) -> (&[u8], &[u8])
    ensures name { result.0.now ≡ (attribute_of part.now).0 }
    ensures value { result.1.now ≡ (attribute_of part.now).1 }
{
    match pair_of(part) {
        Some(pair) => pair,
        None => (trim_blanks(part), b""),
    }
}

// The path that one more attribute leaves as the last.
fn path_after<'a>(found: &'a [u8], attribute: &'a [u8]) -> &'a [u8]
    ensures { result.now ≡ last_or found.now (paths_in (attribute.now ∷ [])) }
{
    let (name, value) = attribute_of(attribute);
    if name.eq_ignore_ascii_case(b"path") {
        value
    } else {
        found
    }
}

// The value of the last `Path` among the attributes.
fn last_path(attributes: &[u8]) -> &[u8]
    ensures { result.now ≡ last_path (attributes_in attributes.now) }
{
    let mut found: &[u8] = b"";
    let mut rest = attributes;
    while let Some((attribute, more)) = cut_at(rest, b';') {
        found = path_after(found, attribute);
        rest = more;
    }
    path_after(found, rest)
}

fn begins_with_slash(text: &[u8]) -> bool
    ensures { result ≡ begins_with_slash text.now }
{
    match text {
        [] => false,
        [first, ..] => *first == b'/',
    }
}

// What stands in front of the last '/'.
fn before_slash(text: &[u8]) -> &[u8]
    ensures { result.now ≡ reverse (behind_slash (reverse text.now)) }
{
    let mut rest = text;
    while let Some((last, more)) = rest.split_last() {
        if *last == b'/' {
            return more;
        }
        rest = more;
    }
    rest
}

fn folder_of(asked: &[u8]) -> &[u8]
    ensures { result.now ≡ folder_of asked.now }
{
    match before_slash(asked) {
        [] => b"/",
        folder => folder,
    }
}

fn path_of<'a>(said: &'a [u8], asked: &'a [u8]) -> &'a [u8]
    ensures { result.now ≡ path_of said.now asked.now }
{
    if begins_with_slash(said) {
        said
    } else {
        folder_of(asked)
    }
}

// What stands before the first ';', and behind it.
fn parted(value: &[u8]) -> (&[u8], &[u8])
    ensures front { result.0.now ≡ (parted value.now).0 }
    ensures back { result.1.now ≡ (parted value.now).1 }
{
    match cut_at(value, b';') {
        Some(cut) => cut,
        None => (value, b""),
    }
}

/// The cookie that an answer of the authority to a request for the path sets by the value of a Set-Cookie
/// field (RFC 6265 section 5.2). None where it sets none.
#[tactic(auto, unfolding(crate::specs::SetCookies::cookie_of))]
pub(crate) fn cookie_of(
    alloc: Global,
    authority: &[u8],
    asked: &[u8],
    value: &[u8],
) -> Result<Option<Cookie>, NoMemory>
    ensures { IfOk result (λ cookie. cookie ≡ cookie_of authority.now asked.now value.now) }
{
    let (pair, attributes) = parted(value);
    let Some((name, value)) = pair_of(pair) else {
        return Ok(None);
    };
    if name.is_empty() {
        return Ok(None);
    }
    let path = path_of(last_path(attributes), asked);
    Ok(Some(Cookie {
        authority: Octets::of(Vec::from_slice(alloc, authority)?),
        name: Octets::of(Vec::from_slice(alloc, name)?),
        path: Octets::of(Vec::from_slice(alloc, path)?),
        value: Octets::of(Vec::from_slice(alloc, value)?),
    }))
}
