//! The tests of the components, one for each fault.

ghost use Rattle.std.specs.Prelude.{◌≡◌, ◌+◌, ◌<◌, ◌^◌, length, ◌==◌};
ghost use Rattle.std.specs.List.{list_any};
ghost use Rattle.std.specs.Option.{option_copied};
ghost use Rattle.std.specs.Str.{byte};
ghost use Rattle.usp_uri.specs.Faults.{is_port, rest_fault_at, begins_with_digits, is_allowed, host_fault_at, port_fault_in, fault_for};

use crate::fault::UriFault;
use crate::letters::{is_literal, is_unreserved};

/// Whether the text holds an '@'.
pub fn has_at_sign(text: &[u8]) -> bool
    ensures { result ≡ list_any (λ c. c == byte "@") text.now }
{
    let mut rest = text;
    while let [c, after @ ..] = rest {
        if *c == b'@' {
            return true;
        }
        rest = after;
    }
    false
}

/// The fault of a host that begins at this offset.
pub fn host_fault(at: usize, host: &[u8]) -> Option<UriFault>
    requires { at + length host.now < 2 ^ 64 }
    ensures { result ≡ host_fault_at at host.now }
{
    if host.is_empty() {
        return Some(UriFault::Syntax { at });
    }
    let mut place = at;
    let mut rest = host;
    while let [c, after @ ..] = rest {
        if !is_unreserved(*c) {
            return Some(UriFault::Syntax { at: place });
        }
        place += 1;
        rest = after;
    }
    None
}

/// Whether the text is no port, or a number from 1 to 65,535 in digits without a leading zero.
pub fn is_port(port: &[u8]) -> bool
    ensures { result ≡ is_port port.now }
{
    if let [b'0', ..] = port {
        return false;
    }
    let mut number: u32 = 0;
    let mut rest = port;
    while let [c, after @ ..] = rest {
        if !c.is_ascii_digit() {
            return false;
        }
        number = number * 10 + u32::from(*c - b'0');
        if number > 65535 {
            return false;
        }
        rest = after;
    }
    true
}

/// The fault of what follows the colon of an authority.
pub fn port_fault(port: Option<&[u8]>) -> Option<UriFault>
    ensures { result ≡ port_fault_in (option_copied port.entry) }
{
    match port {
        Some(port) if !is_port(port) => Some(UriFault::Port),
        _ => None,
    }
}

/// Whether the text begins with two hexadecimal digits.
fn begins_with_digits(text: &[u8]) -> bool
    ensures { result ≡ begins_with_digits text.now }
{
    match text {
        [high, low, ..] => high.is_ascii_hexdigit() && low.is_ascii_hexdigit(),
        _ => false,
    }
}

/// Whether a byte of a path or a query may stand before this rest.
fn is_allowed(c: u8, rest: &[u8]) -> bool
    ensures { result ≡ is_allowed c rest.now }
{
    is_literal(c) || (c == b'%' && begins_with_digits(rest))
}

fn fault_for(at: usize, c: u8) -> UriFault
    ensures { result ≡ fault_for at c }
{
    match c {
        b'#' => UriFault::Fragment,
        b'%' => UriFault::Escape { at },
        _ => UriFault::Syntax { at },
    }
}

/// The first fault of a path and a query that begin at this offset.
pub fn rest_fault(at: usize, text: &[u8]) -> Option<UriFault>
    requires { at + length text.now < 2 ^ 64 }
    ensures { result ≡ rest_fault_at at text.now }
{
    let mut place = at;
    let mut rest = text;
    while let [c, after @ ..] = rest {
        if !is_allowed(*c, after) {
            return Some(fault_for(place, *c));
        }
        place += 1;
        rest = after;
    }
    None
}
