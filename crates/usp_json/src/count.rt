//! How long the canonical spelling is, without writing it.

ghost use Rattle.std.specs.Prelude.{◌≡◌, ◌<◌, ◌^◌, length, map};
ghost use Rattle.std.specs.List.{zip};
ghost use Rattle.usp_json.specs.Canon.{canon, canon_items, canon_members, canon_text, commas, escape_of, member_of};

use crate::{Items, Json, Members, Text};

// A byte of a text.
fn byte_len(b: u8) -> usize
    ensures { result ≡ length (escape_of b) }
{
    match b {
        b'"' | b'\\' | 8 | b'\t' | b'\n' | 12 | b'\r' => 2,
        0..=31 => 6,
        _ => 1,
    }
}

#[tactic(auto, using(crate::proofs::Sizes::text_size, crate::proofs::Sizes::bytes_left))]
fn text_len(text: &str) -> usize
    requires { length (canon_text text.now) < 2 ^ 64 }
    ensures { result ≡ length (canon_text text.now) }
{
    let mut len = 2;
    let bytes = text.as_bytes();
    'bytes: for b in bytes {
        len += byte_len(*b);
    }
    len
}

#[cycle(count)]
fn value_len(value: &Json) -> usize
    requires { length (canon value.now) < 2 ^ 64 }
    ensures { result ≡ length (canon value.now) }
{
    match value {
        Json::Null | Json::Bool(true) => 4,
        Json::Bool(false) => 5,
        Json::Num(number) => number.text().len(),
        Json::Str(text) => text_len(text.text()),
        Json::List(items) => items_len(items),
        Json::Obj(members) => canonical_len(members),
    }
}

#[cycle(count)]
#[tactic(auto, using(crate::proofs::Sizes::bracketed))]
fn items_len(items: &Items) -> usize
    requires { length (canon_items items.now) < 2 ^ 64 }
    ensures { result ≡ length (canon_items items.now) }
{
    2 + values_len(items.values.as_slice())
}

#[cycle(count)]
#[tactic(auto, using(crate::proofs::Sizes::commas_size, crate::proofs::Sizes::values_left))]
fn values_len(values: &[Json]) -> usize
    requires { length (commas (map canon values.now)) < 2 ^ 64 }
    ensures { result ≡ length (commas (map canon values.now)) }
{
    let [first, rest @ ..] = values else {
        return 0;
    };
    let mut len = value_len(first);
    'values: for value in rest {
        len += 1 + value_len(value);
    }
    len
}

#[cycle(count)]
#[tactic(auto, using(crate::proofs::Sizes::member_size))]
fn member_len(name: &Text, value: &Json) -> usize
    requires { length (member_of (name.now, canon value.now)) < 2 ^ 64 }
    ensures { result ≡ length (member_of (name.now, canon value.now)) }
{
    text_len(name.text()) + 1 + value_len(value)
}

#[cycle(count)]
#[tactic(auto, using(crate::proofs::Sizes::commas_size, crate::proofs::Sizes::pairs_left))]
fn pairs_len(names: &[Text], values: &[Json]) -> usize
    requires { length (commas (map member_of (zip names.now (map canon values.now)))) < 2 ^ 64 }
    ensures { result ≡ length (commas (map member_of (zip names.now (map canon values.now)))) }
{
    let [name, more_names @ ..] = names else {
        return 0;
    };
    let [value, more_values @ ..] = values else {
        return 0;
    };
    let mut len = member_len(name, value);
    'pairs: for (i, value) in more_values.iter().enumerate() {
        if i >= more_names.len() {
            return len;
        }
        len += 1 + member_len(&more_names[i], value);
    }
    len
}

/// How many bytes the text has that `write_members` writes. It takes no memory.
#[cycle(count)]
#[tactic(auto, using(crate::proofs::Sizes::bracketed))]
pub fn canonical_len(members: &Members) -> usize
    requires { length (canon_members members.now) < 2 ^ 64 }
    ensures { result ≡ length (canon_members members.now) }
{
    2 + pairs_len(members.names.as_slice(), members.values.as_slice())
}
