//! The canonical spelling.

ghost use Rattle.std.specs.Prelude.{◌≡◌, ◌<◌, ◌++◌, map, OnOk, IfOk};
ghost use Rattle.std.specs.List.{zip};
ghost use Rattle.usp_json.specs.Canon.{canon, canon_items, canon_members, canon_text, commas, escape_of, hex_digit, member_of};
ghost use Rattle.usp_json.specs.Kept.{KeepsLimits};
ghost use Rattle.usp_json.specs.Spells.{IsReading};

use crate::{Items, Json, Members, NoMemory, Text};
use std::alloc::{AllocError, Global};

fn hex_digit(digit: u8) -> u8
    requires { digit < 16 }
    ensures { result ≡ hex_digit digit }
{
    if digit < 10 {
        b'0' + digit
    } else {
        b'a' + (digit - 10)
    }
}

// A byte of a text.
fn write_byte(out: &mut Vec<u8>, b: u8) -> Result<(), AllocError>
    ensures { OnOk result (out.new.items ≡ out.old.items ++ escape_of b) }
{
    match b {
        b'"' => out.extend_from_slice(b"\\\"")?,
        b'\\' => out.extend_from_slice(b"\\\\")?,
        8 => out.extend_from_slice(b"\\b")?,
        b'\t' => out.extend_from_slice(b"\\t")?,
        b'\n' => out.extend_from_slice(b"\\n")?,
        12 => out.extend_from_slice(b"\\f")?,
        b'\r' => out.extend_from_slice(b"\\r")?,
        0..=31 => out.extend_from_slice(&[
            b'\\',
            b'u',
            b'0',
            b'0',
            hex_digit(b / 16),
            hex_digit(b % 16),
        ])?,
        _ => out.push(b)?,
    }
    Ok(())
}

fn write_text(out: &mut Vec<u8>, text: &str) -> Result<(), AllocError>
    ensures { OnOk result (out.new.items ≡ out.old.items ++ canon_text text.now) }
{
    out.push(b'"')?;
    let bytes = text.as_bytes();
    'bytes: for b in bytes {
        write_byte(out, *b)?;
    }
    out.push(b'"')?;
    Ok(())
}

#[cycle(write)]
fn write_value(out: &mut Vec<u8>, value: &Json) -> Result<(), AllocError>
    ensures { OnOk result (out.new.items ≡ out.old.items ++ canon value.now) }
{
    match value {
        Json::Null => out.extend_from_slice(b"null")?,
        Json::Bool(true) => out.extend_from_slice(b"true")?,
        Json::Bool(false) => out.extend_from_slice(b"false")?,
        Json::Num(number) => out.extend_from_slice(number.text())?,
        Json::Str(text) => write_text(out, text.text())?,
        Json::List(items) => write_items(out, items)?,
        Json::Obj(members) => write_object(out, members)?,
    }
    Ok(())
}

#[cycle(write)]
fn write_items(out: &mut Vec<u8>, items: &Items) -> Result<(), AllocError>
    ensures { OnOk result (out.new.items ≡ out.old.items ++ canon_items items.now) }
{
    out.push(b'[')?;
    write_values(out, items.values.as_slice())?;
    out.push(b']')?;
    Ok(())
}

#[cycle(write)]
fn write_values(out: &mut Vec<u8>, values: &[Json]) -> Result<(), AllocError>
    ensures { OnOk result (out.new.items ≡ out.old.items ++ commas (map canon values.now)) }
{
    let [first, rest @ ..] = values else {
        return Ok(());
    };
    write_value(out, first)?;
    'values: for value in rest {
        out.push(b',')?;
        write_value(out, value)?;
    }
    Ok(())
}

#[cycle(write)]
fn write_object(out: &mut Vec<u8>, members: &Members) -> Result<(), AllocError>
    ensures { OnOk result (out.new.items ≡ out.old.items ++ canon_members members.now) }
{
    out.push(b'{')?;
    write_pairs(out, members.names.as_slice(), members.values.as_slice())?;
    out.push(b'}')?;
    Ok(())
}

#[cycle(write)]
fn write_member(out: &mut Vec<u8>, name: &Text, value: &Json) -> Result<(), AllocError>
    ensures { OnOk result (out.new.items ≡ out.old.items ++ member_of (name.now, canon value.now)) }
{
    write_text(out, name.text())?;
    out.push(b':')?;
    write_value(out, value)
}

#[cycle(write)]
#[tactic(auto, using(crate::proofs::Pairs::zip_nil))]
fn write_pairs(out: &mut Vec<u8>, names: &[Text], values: &[Json]) -> Result<(), AllocError>
    ensures { OnOk result (out.new.items ≡ out.old.items
        ++ commas (map member_of (zip names.now (map canon values.now)))) }
{
    let [name, more_names @ ..] = names else {
        return Ok(());
    };
    let [value, more_values @ ..] = values else {
        return Ok(());
    };
    write_member(out, name, value)?;
    'pairs: for (i, value) in more_values.iter().enumerate() {
        if i >= more_names.len() {
            return Ok(());
        }
        out.push(b',')?;
        write_member(out, &more_names[i], value)?;
    }
    Ok(())
}

/// The canonical text of a value, as in `write_members`.
pub fn write_json(alloc: Global, value: &Json) -> Result<Vec<u8>, NoMemory>
    ensures { IfOk result (λ text. text.items ≡ canon value.now) }
{
    let mut out = Vec::new(alloc);
    write_value(&mut out, value)?;
    Ok(out)
}

/// The canonical text of an object: no white space outside texts, numbers as they were spelled, and in texts only what
/// must be escaped (RFC 8259 section 7).
#[tactic(auto, using(crate::proofs::CanonLaws::reads_back))]
pub fn write_members(alloc: Global, members: &Members) -> Result<Vec<u8>, NoMemory>
    ensures canonical { IfOk result (λ text. text.items ≡ canon_members members.now) }
    ensures reads_back { IfOk result (λ text. KeepsLimits members.now
        → IsReading text.items members.now) }
{
    let mut out = Vec::new(alloc);
    write_object(&mut out, members)?;
    Ok(out)
}
