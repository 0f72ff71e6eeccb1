//! Names of files below a folder, for paths of URIs.
ghost use Rattle.std.specs.Prelude.{◌≡◌, ◌++◌, ◌<◌, false, true, IfOk, IfSome, IfNone, OnOk, position};
ghost use Rattle.std.specs.Option.{option_map};
ghost use Rattle.std.specs.Char.{digit_value, is_ascii_hexdigit};
ghost use Rattle.std.specs.List.{list_all};
ghost use Rattle.usp_uri.specs.Components.{after_scheme, path_in, scheme_in};
ghost use Rattle.usp_uri.specs.Letters.{escaped_byte, is_colon};
ghost use Rattle.usp.specs.Names.{decoded, is_escape, is_name, is_name_byte, name_below};

use std::alloc::{AllocError, Global};
use usp_uri::{cut_at_slash, cut_authority, cut_path};

// Where the first ':' stands.
fn colon_in(uri: &[u8]) -> Option<usize>
    ensures { result ≡ position is_colon uri.now }
{
    uri.iter().position(|c| *c == b':')
}

// What stands before the first ':'.
#[tactic(auto, using(crate::proofs::Cutting::cut_rules))]
fn scheme_of(uri: &[u8]) -> &[u8]
    ensures { result.now ≡ scheme_in uri.now }
{
    let end = colon_in(uri).unwrap_or(uri.len());
    uri.split_at(end).0
}

// What stands behind the "://".
#[tactic(auto, using(crate::proofs::Cutting::after_rules))]
fn after_scheme(uri: &[u8]) -> &[u8]
    ensures { result.now ≡ after_scheme uri.now }
{
    let start = scheme_of(uri).len().saturating_add(3).min(uri.len());
    uri.split_at(start).1
}

/// The path of a URI. It means something where the text begins with a scheme and `://`.
pub fn path_of(uri: &[u8]) -> &[u8]
    ensures { result.now ≡ path_in uri.now }
{
    let (_, rest) = cut_authority(after_scheme(uri));
    cut_path(rest).0
}

// The value of a hexadecimal digit.
fn digit_of(letter: u8) -> u8
    requires { is_ascii_hexdigit letter ≡ true }
    ensures value { result ≡ digit_value letter }
    ensures small { result < 16 }
{
    match letter {
        b'0'..=b'9' => letter - b'0',
        b'A'..=b'F' => letter - b'A' + 10,
        _ => letter - b'a' + 10,
    }
}

// The byte of an escape, if it is one.
fn escaped(c: u8, high: u8, low: u8) -> Option<u8>
    ensures some { IfSome result (λ byte. (is_escape c high low ≡ true) × (byte ≡ escaped_byte high low)) }
    ensures none { IfNone result (is_escape c high low ≡ false) }
{
    if c == b'%' && high.is_ascii_hexdigit() && low.is_ascii_hexdigit() {
        Some(16 * digit_of(high) + digit_of(low))
    } else {
        None
    }
}

// Adds the text with each escape as its byte.
fn push_decoded(out: &mut Vec<u8>, text: &[u8]) -> Result<(), AllocError>
    ensures { OnOk result (out.new.items ≡ out.old.items ++ decoded text.now) }
{
    let mut rest = text;
    while let [c, after @ ..] = rest {
        match after {
            [high, low, others @ ..] => match escaped(*c, *high, *low) {
                Some(byte) => {
                    out.push(byte)?;
                    rest = others;
                }
                None => {
                    out.push(*c)?;
                    rest = after;
                }
            },
            _ => {
                out.push(*c)?;
                rest = after;
            }
        }
    }
    Ok(())
}

// Whether a byte can stand in a name of the system.
fn is_name_byte(c: u8) -> bool
    ensures { result ≡ is_name_byte c }
{
    c != 0 && c != b'/'
}

fn has_name_bytes(text: &[u8]) -> bool
    ensures { result ≡ list_all is_name_byte text.now }
{
    text.iter().all(|c| is_name_byte(*c))
}

// Whether a text is the name of a file or a folder in the folder where it stands.
fn is_name(text: &[u8]) -> bool
    ensures { result ≡ is_name text.now }
{
    text != b"".as_slice()
        && text != b".".as_slice()
        && text != b"..".as_slice()
        && has_name_bytes(text)
}

/// What to put behind the name of a folder for the file that a path names: the path with each escape as its byte.
/// None where it names no file below the folder: where a segment is empty, `.` or `..`, or has a NUL or a '/' that
/// was escaped.
#[tactic(auto, using(crate::proofs::Naming::goes_on))]
pub fn name_below(alloc: Global, path: &[u8]) -> Result<Option<Vec<u8>>, AllocError>
    ensures { IfOk result (λ some. option_map (λ name. name.items) some ≡ name_below path.now) }
{
    let mut name = Vec::new(alloc);
    let mut rest = path;
    while let Some((_, after)) = rest.split_first() {
        let (segment, others) = cut_at_slash(after);
        let mut one = Vec::new(alloc);
        push_decoded(&mut one, segment)?;
        if !is_name(&one) {
            return Ok(None);
        }
        name.push(b'/')?;
        name.extend_from_slice(&one)?;
        rest = others;
    }
    Ok(Some(name))
}
