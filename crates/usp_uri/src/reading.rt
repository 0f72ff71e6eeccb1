//! Reading a text into its components, with its first fault.

ghost use Rattle.std.specs.Prelude.{◌≡◌, ◌≤◌, ◌+◌, length, None, Some, IfSome, IfNone, MatchResult, Ok, ◌<◌, ◌^◌};
ghost use Rattle.usp_uri.specs.Components.{components_of, scheme_in, after_scheme, authority_start, authority_in, after_authority};
ghost use Rattle.usp_uri.specs.Faults.{text_fault, scheme_fault, begins_in_any_case, normal_of};
ghost use Rattle.usp_uri.specs.ComponentSlices.{components};
ghost use Rattle.usp_uri.specs.Delimited.{after_mark, first_outside};
ghost use Rattle.std.specs.Option.{option_copied};
ghost use Rattle.usp_uri.specs.Origin.{is_no_path_byte};

use crate::checks::{has_at_sign, host_fault, port_fault, rest_fault};
use crate::component_slices::ComponentSlices;
use crate::delimited::{cut_at_colon, cut_at_hash, cut_authority, cut_path};
use crate::fault::UriFault;
use crate::limits::MAX_LEN;

/// Whether the text begins with the name, in any case.
#[tactic(auto, using(crate::proofs::SchemeLemmas::shorter))]
fn begins_in_any_case(name: &[u8], text: &[u8]) -> bool
    ensures { result ≡ begins_in_any_case name.now text.now }
{
    if text.len() < name.len() {
        return false;
    }
    let (front, _) = text.split_at(name.len());
    front.eq_ignore_ascii_case(name)
}

/// How many bytes the scheme has.
#[tactic(auto, using(crate::proofs::SchemeLemmas::scheme_rules))]
fn scheme_len(text: &[u8]) -> Option<usize>
    ensures none { IfNone result (scheme_fault text.now ≡ Some UriFault.Scheme) }
    ensures some { IfSome result (λ n. scheme_fault text.now ≡ None) }
    ensures value { IfSome result (λ n. n ≡ length (scheme_in text.now)) }
    ensures room { IfSome result (λ n. n + 3 ≤ length text.now) }
{
    if begins_in_any_case(b"http://", text) {
        return Some(4);
    }
    if begins_in_any_case(b"https://", text) {
        return Some(5);
    }
    None
}

/// What follows a mark, where there is one.
fn after_mark(text: &[u8]) -> Option<&[u8]>
    ensures { option_copied result ≡ after_mark text.now }
{
    match text {
        [] => None,
        [_, rest @ ..] => Some(rest),
    }
}

/// The components of a text without a fault, or its first fault.
pub fn read(text: &[u8]) -> Result<ComponentSlices<'_>, UriFault>
    ensures { MatchResult result
        (λ slices. (text_fault text.now ≡ None) × (components slices ≡ components_of text.now))
        (λ fault. text_fault text.now ≡ Some fault) }
{
    if text.len() > MAX_LEN {
        return Err(UriFault::TooLong);
    }
    let Some(len) = scheme_len(text) else {
        return Err(UriFault::Scheme);
    };
    let (scheme, _) = text.split_at(len);
    let (_, after_scheme) = text.split_at(len + 3);
    let (authority, rest) = cut_authority(after_scheme);
    if has_at_sign(authority) {
        return Err(UriFault::Userinfo);
    }
    let (host, port) = cut_at_colon(authority);
    if let Some(fault) = host_fault(len + 3, host) {
        return Err(fault);
    }
    let port = after_mark(port);
    if let Some(fault) = port_fault(port) {
        return Err(fault);
    }
    if let Some(fault) = rest_fault(len + 3 + authority.len(), rest) {
        return Err(fault);
    }
    let (path, query) = cut_path(rest);
    let (query, _) = cut_at_hash(query);
    Ok(ComponentSlices {
        scheme,
        host,
        port,
        path,
        query: after_mark(query),
    })
}

/// The authority of a text in normal form, and what follows it.
#[tactic(auto, using(crate::proofs::NormalLemmas::start_within))]
pub fn split_normal(text: &[u8]) -> (&[u8], &[u8])
    requires { normal_of text.now ≡ Ok text.now }
    ensures authority { result.0.now ≡ authority_in text.now }
    ensures rest { result.1.now ≡ after_authority text.now }
{
    let (scheme, _) = cut_at_colon(text);
    let (_, after_scheme) = text.split_at(scheme.len() + 3);
    cut_authority(after_scheme)
}

/// The components of a text in normal form.
pub fn cut_normal(text: &[u8]) -> ComponentSlices<'_>
    requires { normal_of text.now ≡ Ok text.now }
    ensures { components result ≡ components_of text.now }
{
    let (scheme, _) = cut_at_colon(text);
    let (authority, rest) = split_normal(text);
    let (host, port) = cut_at_colon(authority);
    let (path, query) = cut_path(rest);
    let (query, _) = cut_at_hash(query);
    ComponentSlices {
        scheme,
        host,
        port: after_mark(port),
        path,
        query: after_mark(query),
    }
}

/// The first '/' or '?' behind the "://" of a text that begins with a scheme.
pub fn path_start(text: &[u8]) -> Option<usize>
    requires start { authority_start text.now ≤ length text.now }
    requires room { length text.now < 2 ^ 64 }
    ensures { result ≡ first_outside is_no_path_byte (authority_start text.now) (after_scheme text.now) }
{
    let (scheme, _) = cut_at_colon(text);
    let mut place = scheme.len() + 3;
    let (_, mut rest) = text.split_at(place);
    while let [c, after @ ..] = rest {
        if matches!(*c, b'/' | b'?') {
            return Some(place);
        }
        place += 1;
        rest = after;
    }
    None
}
