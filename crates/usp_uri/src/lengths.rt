//! How long a normal form is, without writing it.

ghost use Rattle.std.specs.Prelude.{◌≡◌, ◌≤◌, ◌+◌, [], length, map, nat_lt, true};
ghost use Rattle.std.specs.Option.{option_copied, option_map};
ghost use Rattle.std.specs.Str.{byte};
ghost use Rattle.std.specs.Char.{to_ascii_lowercase};
ghost use Rattle.usp_uri.specs.ComponentSlices.{components};
ghost use Rattle.usp_uri.specs.Components.{text_of};
ghost use Rattle.usp_uri.specs.Delimited.{with_mark};
ghost use Rattle.usp_uri.specs.DotSegments.{is_at_slash};
ghost use Rattle.usp_uri.specs.Normal.{kept_port, normal_components, normal_escape, normal_escapes};
ghost use Rattle.usp_uri.specs.declared.limits.TheConstants.{MAX_LEN};

use crate::component_slices::ComponentSlices;
use crate::limits::MAX_LEN;
use crate::writing::{own_port, unreserved_byte};

/// How many bytes an escape has in the normal form.
fn escape_len(high: u8, low: u8) -> usize
    ensures value { result ≡ length (normal_escape high low) }
    ensures few { result ≤ 3 }
{
    match unreserved_byte(high, low) {
        Some(_) => 1,
        None => 3,
    }
}

/// How many bytes the text has with its escapes as the normal form has them.
fn escapes_len(text: &[u8]) -> usize
    ensures value { result ≡ length (normal_escapes text.now) }
    ensures within { result ≤ length text.now }
{
    let mut len: usize = 0;
    let mut rest = text;
    while let [c, after @ ..] = rest {
        match after {
            [high, low, others @ ..] if *c == b'%' => {
                len += escape_len(*high, *low);
                rest = others;
            }
            _ => {
                len += 1;
                rest = after;
            }
        }
    }
    len
}

/// How many bytes the port has with its ':', unless it is empty or the scheme's own.
fn kept_port_len(scheme: &[u8], port: Option<&[u8]>) -> usize
    requires { length (with_mark (byte ":") (option_copied port)) ≤ MAX_LEN }
    ensures value { let kept = kept_port (map to_ascii_lowercase scheme.now) (option_copied port.entry) in
        result ≡ length (with_mark (byte ":") kept) }
    ensures within { result ≤ length (with_mark (byte ":") (option_copied port.entry)) }
{
    match port {
        Some(port) if !port.is_empty() && port != own_port(scheme) => 1 + port.len(),
        _ => 0,
    }
}

/// How many bytes the query has in the normal form, with its '?'.
fn query_len(query: Option<&[u8]>) -> usize
    requires { length (with_mark (byte "?") (option_copied query)) ≤ MAX_LEN }
    ensures value { result ≡ length (with_mark (byte "?") (option_map normal_escapes (option_copied query.entry))) }
    ensures within { result ≤ length (with_mark (byte "?") (option_copied query.entry)) }
{
    match query {
        Some(query) => 1 + escapes_len(query),
        None => 0,
    }
}

/// How many bytes the normal form has where the path is empty, which becomes a '/'.
fn pathless_len(slices: &ComponentSlices<'_>) -> usize
    requires empty { slices.now.path.now ≡ [] }
    requires short { length (text_of (components slices.now)) ≤ MAX_LEN }
    ensures { result ≡ length (text_of (normal_components (components slices.now))) }
{
    let port = kept_port_len(slices.scheme, slices.port);
    let query = query_len(slices.query);
    slices.scheme.len() + 3 + slices.host.len() + port + 1 + query
}

/// Whether the normal form passes the limit. The '/' of an empty path alone makes it longer.
pub fn outgrows(slices: &ComponentSlices<'_>) -> bool
    requires path { is_at_slash slices.now.path.now ≡ true }
    requires short { length (text_of (components slices.now)) ≤ MAX_LEN }
    ensures { result ≡ nat_lt MAX_LEN (length (text_of (normal_components (components slices.now)))) }
{
    slices.path.is_empty() && pathless_len(slices) > MAX_LEN
}
