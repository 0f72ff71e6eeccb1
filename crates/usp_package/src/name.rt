//! The name of the attribute that carries a token.

ghost use Rattle.std.specs.Prelude.{◌≡◌, ◌≤◌, IsSome, IfSome, ◌↔◌, true};
ghost use Rattle.usp_package.specs.Name.{is_name_byte, is_attr_name};

use crate::limits::MAX_NAME;
use std::marker::Model;

/// The name of an attribute: 1 to `MAX_NAME` letters, digits, `-` and `_`. Contracts see its bytes.
#[derive(Drop)]
pub struct AttrName {
    bytes: [u8; MAX_NAME],
    len: usize,
}

impl Model for AttrName {
    ghost use Rattle.std.specs.Prelude.{◌≡◌, ◌≤◌, List, ℕ, take, true};
    ghost use Rattle.usp_package.specs.Name.{is_attr_name};
    ghost use Rattle.usp_package.specs.declared.limits.TheConstants.{MAX_NAME};

    ghost Value = { List ℕ };

    ghost view = { λ a. take a.len a.bytes };

    ghost invariant = { λ a. (a.len ≤ MAX_NAME) × (is_attr_name (take a.len a.bytes) ≡ true) };
}

// A letter, a digit, `-` or `_`.
fn is_name_byte(c: u8) -> bool
    ensures { result ≡ is_name_byte c }
{
    c.is_ascii_alphanumeric() || matches!(c, b'-' | b'_')
}

// Whether the text is such a name.
fn is_attr_name(text: &[u8]) -> bool
    ensures { result ≡ is_attr_name text.now }
{
    if text.is_empty() || text.len() > MAX_NAME {
        return false;
    }
    let mut rest = text;
    while let [c, after @ ..] = rest {
        if !is_name_byte(*c) {
            return false;
        }
        rest = after;
    }
    true
}

impl AttrName {
    /// The name that the text is. None exactly where it is none.
    pub fn new(text: &[u8]) -> Option<AttrName>
        ensures some { IsSome result ↔ (is_attr_name text.now ≡ true) }
        ensures value { IfSome result (λ name. name ≡ text.now) }
    {
        if !is_attr_name(text) {
            return None;
        }
        let mut bytes = [0; MAX_NAME];
        bytes[..text.len()].copy_from_slice(text);
        Some(AttrName {
            bytes,
            len: text.len(),
        })
    }

    /// The name's bytes.
    pub fn text(&self) -> &[u8]
        ensures value { result.now ≡ self.now }
        ensures name { is_attr_name self.now ≡ true }
    {
        self.bytes.as_slice().split_at(self.len).0
    }
}
