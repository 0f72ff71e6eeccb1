//! What a request asks.
ghost use Rattle.std.specs.Prelude.{◌≡◌, List, IfOk};
ghost use Rattle.std.specs.Option.{option_copied};
ghost use Rattle.usp_package.specs.Package.{package_of};
ghost use Rattle.usp_rules.specs.Asks.{token_in};
ghost use Rattle.usp_uri.specs.Origin.{request_text};
ghost use Rattle.usp_edge.specs.Asks.{cookie_in};

use crate::memory::NoMemory;
use crate::request::Request;
use std::alloc::Global;
use usp_base::Octets;
use usp_cookie::token_of;
use usp_package::{AttrName, Found, find};
use usp_uri::request_uri;

/// The URI that is asked for (RFC 9112 section 3.3).
pub(crate) fn asked_uri(request: &Request<'_>) -> Result<Octets, NoMemory>
    ensures { IfOk result (λ uri. uri
        ≡ request_text request.now.conf.now.scheme request.now.head.now.host request.now.head.now.target) }
{
    let scheme = request.conf.scheme().text().as_bytes();
    let head = request.head;
    let uri = request_uri(
        request.alloc,
        scheme,
        head.host.bytes(),
        head.target.bytes(),
    )?;
    Ok(Octets::of(uri))
}

/// The token of the first Cookie field that has one of that name (RFC 6265 section 4.2.1).
pub(crate) fn cookie_in<'a>(name: &AttrName, cookies: &'a [Octets]) -> Option<&'a [u8]>
    ensures { option_copied result ≡ cookie_in name.now cookies.now }
{
    for value in cookies {
        if let Some(token) = token_of(name, value.bytes()) {
            return Some(token);
        }
    }
    None
}

fn copied(alloc: Global, token: &[u8]) -> Result<Octets, NoMemory>
    ensures { IfOk result (λ copied. copied ≡ token.now) }
{
    Ok(Octets::of(Vec::from_slice(alloc, token)?))
}

/// The token that the URI brings, or the cookie where the URI has no package.
pub(crate) fn brought(
    alloc: Global,
    name: &AttrName,
    uri: &[u8],
    cookie: Option<&[u8]>,
) -> Result<Option<Octets>, NoMemory>
    ensures { IfOk result (λ token.
        token ≡ token_in (package_of name.now uri.now) (option_copied cookie.entry)) }
{
    match find(name, uri) {
        Found::None => match cookie {
            None => Ok(None),
            Some(token) => Ok(Some(copied(alloc, token)?)),
        },
        Found::Bad { .. } => Ok(None),
        Found::At { token, .. } => Ok(Some(copied(alloc, token)?)),
    }
}
