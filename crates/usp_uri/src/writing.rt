//! Writing the normal form of a text that has no fault.

ghost use Rattle.std.specs.Prelude.{◌≡◌, ◌++◌, [], map, OnOk, IfOk, true, false, IfSome, IfNone, position};
ghost use Rattle.std.specs.Option.{option_copied, option_map};
ghost use Rattle.std.specs.Str.{byte};
ghost use Rattle.std.specs.Char.{to_ascii_lowercase, digit_value};
ghost use Rattle.usp_uri.specs.Delimited.{with_mark, until, from_first};
ghost use Rattle.usp_uri.specs.Letters.{is_slash, escaped_byte, is_unreserved};
ghost use Rattle.usp_uri.specs.Kept.{stack_of, texts_of};
ghost use Rattle.usp_uri.specs.Components.{text_of};
ghost use Rattle.usp_uri.specs.Normal.{normal_escape, normal_escapes, kept_port, normal_components, remove_dot_segments, is_single_dot, is_double_dot, next_kept, at_the_end, resolved, segments_of, path_from, own_port, rooted};
ghost use Rattle.usp_uri.specs.ComponentSlices.{components};

use crate::component_slices::ComponentSlices;
use crate::delimited::cut_at_slash;
use crate::letters::is_unreserved;
use std::alloc::{AllocError, Global};

/// The value of a digit or a letter, and 36 for any other byte.
fn digit_value(c: u8) -> u16
    ensures { result ≡ digit_value c }
{
    match c {
        b'0'..=b'9' => u16::from(c - b'0'),
        b'A'..=b'Z' => u16::from(c - b'A') + 10,
        b'a'..=b'z' => u16::from(c - b'a') + 10,
        _ => 36,
    }
}

/// The unreserved byte that an escape with these digits stands for.
#[tactic(auto, using(crate::proofs::EscapeLemmas::past_ascii))]
pub fn unreserved_byte(high: u8, low: u8) -> Option<u8>
    ensures some { IfSome result (λ c. (c ≡ escaped_byte high low) × (is_unreserved (escaped_byte high low) ≡ true)) }
    ensures none { IfNone result (is_unreserved (escaped_byte high low) ≡ false) }
{
    let value = 16 * digit_value(high) + digit_value(low);
    if value >= 128 {
        return None;
    }
    let c = value as u8;
    if is_unreserved(c) { Some(c) } else { None }
}

/// Adds an escape as the normal form has it.
fn push_escape(out: &mut Vec<u8>, high: u8, low: u8) -> Result<(), AllocError>
    ensures { OnOk result (out.new.items ≡ out.old.items ++ normal_escape high low) }
{
    match unreserved_byte(high, low) {
        Some(c) => out.push(c)?,
        None => {
            out.push(b'%')?;
            out.push(high.to_ascii_uppercase())?;
            out.push(low.to_ascii_uppercase())?;
        }
    }
    Ok(())
}

/// Adds the text with its escapes as the normal form has them.
fn push_normal_escapes(out: &mut Vec<u8>, text: &[u8]) -> Result<(), AllocError>
    ensures { OnOk result (out.new.items ≡ out.old.items ++ normal_escapes text.now) }
{
    let mut rest = text;
    while let [c, after @ ..] = rest {
        match after {
            [high, low, others @ ..] if *c == b'%' => {
                push_escape(out, *high, *low)?;
                rest = others;
            }
            _ => {
                out.push(*c)?;
                rest = after;
            }
        }
    }
    Ok(())
}

/// Adds the text in lower case.
fn push_lower(out: &mut Vec<u8>, text: &[u8]) -> Result<(), AllocError>
    ensures { OnOk result (out.new.items ≡ out.old.items ++ map to_ascii_lowercase text.now) }
{
    let mut rest = text;
    while let [c, after @ ..] = rest {
        out.push(c.to_ascii_lowercase())?;
        rest = after;
    }
    Ok(())
}

/// Whether the segment is ".".
fn is_single_dot(segment: &[u8]) -> bool
    ensures { result ≡ is_single_dot segment.now }
{
    segment == b".".as_slice()
}

/// Whether the segment is "..".
fn is_double_dot(segment: &[u8]) -> bool
    ensures { result ≡ is_double_dot segment.now }
{
    segment == b"..".as_slice()
}

/// The segments that stay after the next one.
fn keep<'a>(kept: &mut Vec<&'a [u8]>, segment: &'a [u8]) -> Result<(), AllocError>
    ensures { OnOk result (stack_of kept.new.items ≡ next_kept (stack_of kept.old.items) segment.now) }
{
    if is_single_dot(segment) {
        return Ok(());
    }
    if is_double_dot(segment) {
        kept.pop();
        return Ok(());
    }
    kept.push(segment)?;
    Ok(())
}

/// The segments that stay after the last one.
fn keep_last<'a>(kept: &mut Vec<&'a [u8]>, segment: &'a [u8]) -> Result<(), AllocError>
    ensures { OnOk result (stack_of kept.new.items
        ≡ at_the_end (next_kept (stack_of kept.old.items) segment.now) segment.now) }
{
    keep(kept, segment)?;
    if is_single_dot(segment) || is_double_dot(segment) {
        let (_, nothing) = segment.split_at(segment.len());
        kept.push(nothing)?;
    }
    Ok(())
}

/// The segments of a path without its dot segments.
fn resolve(alloc: Global, path: &[u8]) -> Result<Vec<&[u8]>, AllocError>
    ensures { IfOk result (λ kept. texts_of kept.items ≡ resolved [] (segments_of path.now)) }
{
    let mut kept = Vec::new(alloc);
    let mut rest = path;
    while let [_, after @ ..] = rest {
        let (segment, next) = cut_at_slash(after);
        if next.is_empty() {
            keep_last(&mut kept, segment)?;
        } else {
            keep(&mut kept, segment)?;
        }
        rest = next;
    }
    Ok(kept)
}

/// Adds the segments, each behind a '/'.
fn push_segments(out: &mut Vec<u8>, segments: &[&[u8]]) -> Result<(), AllocError>
    ensures { OnOk result (out.new.items ≡ out.old.items ++ path_from (texts_of segments.now)) }
{
    for segment in segments {
        out.push(b'/')?;
        out.extend_from_slice(segment)?;
    }
    Ok(())
}

/// Adds the path without its dot segments.
fn push_path(alloc: Global, out: &mut Vec<u8>, path: &[u8]) -> Result<(), AllocError>
    ensures { OnOk result (out.new.items ≡ out.old.items ++ remove_dot_segments path.now) }
{
    let kept = resolve(alloc, path)?;
    push_segments(out, &kept)
}

/// The scheme's own port.
pub fn own_port(scheme: &[u8]) -> &'static [u8]
    ensures { result.now ≡ own_port (map to_ascii_lowercase scheme.now) }
{
    if scheme.eq_ignore_ascii_case(b"https") {
        b"443"
    } else {
        b"80"
    }
}

/// Adds the port with its ':', unless it is empty or the scheme's own.
fn push_port(out: &mut Vec<u8>, scheme: &[u8], port: Option<&[u8]>) -> Result<(), AllocError>
    ensures { OnOk result (out.new.items ≡ out.old.items
        ++ with_mark (byte ":") (kept_port (map to_ascii_lowercase scheme.now) (option_copied port.entry))) }
{
    if let Some(port) = port {
        if !port.is_empty() && port != own_port(scheme) {
            out.push(b':')?;
            out.extend_from_slice(port)?;
        }
    }
    Ok(())
}

/// Adds the path, and '/' for an empty one.
fn push_rooted(out: &mut Vec<u8>, path: &[u8]) -> Result<(), AllocError>
    ensures { OnOk result (out.new.items ≡ out.old.items ++ rooted path.now) }
{
    if path.is_empty() {
        out.push(b'/')?;
    } else {
        out.extend_from_slice(path)?;
    }
    Ok(())
}

/// Adds the path, with its escapes and without its dot segments, and '/' where nothing is left.
fn push_whole_path(alloc: Global, out: &mut Vec<u8>, path: &[u8]) -> Result<(), AllocError>
    ensures { OnOk result (out.new.items ≡ out.old.items ++ rooted (remove_dot_segments (normal_escapes path.now))) }
{
    let mut plain = Vec::new(alloc);
    push_normal_escapes(&mut plain, path)?;
    let mut resolved = Vec::new(alloc);
    push_path(alloc, &mut resolved, &plain)?;
    push_rooted(out, &resolved)
}

/// Adds the query with its '?', where there is one.
fn push_query(out: &mut Vec<u8>, query: Option<&[u8]>) -> Result<(), AllocError>
    ensures { OnOk result (out.new.items ≡ out.old.items
        ++ with_mark (byte "?") (option_map normal_escapes (option_copied query.entry))) }
{
    if let Some(query) = query {
        out.push(b'?')?;
        push_normal_escapes(out, query)?;
    }
    Ok(())
}

/// The text of the components in normal form.
pub fn normal(alloc: Global, slices: &ComponentSlices<'_>) -> Result<Vec<u8>, AllocError>
    ensures { IfOk result (λ text. text.items ≡ text_of (normal_components (components slices.now))) }
{
    let mut out = Vec::new(alloc);
    push_lower(&mut out, slices.scheme)?;
    out.extend_from_slice(b"://")?;
    push_lower(&mut out, slices.host)?;
    push_port(&mut out, slices.scheme, slices.port)?;
    push_whole_path(alloc, &mut out, slices.path)?;
    push_query(&mut out, slices.query)?;
    Ok(out)
}
