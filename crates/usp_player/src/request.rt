//! The requests of a player (RFC 9112, section 3), and what it hears.
ghost use Rattle.std.specs.Prelude.{◌≡◌, ◌++◌, None, Some, Err, IfOk, OnOk};
ghost use Rattle.std.specs.Option.{option_copied};
ghost use Rattle.usp_base.specs.Counts.{HasCause};
ghost use Rattle.usp_player.specs.Calls.{Exchanges, GivesUrl, IsUrlFault};
ghost use Rattle.usp_player.specs.Requests.{authority_of, cookie_text, head_of, is_web, port_text, query_text, url_of};
ghost use Rattle.usp_player.specs.declared.fault.PlayFault.TheVariants.{LinkFault};

use crate::PlayFault;
use std::alloc::{AllocError, Global};
use std::str::from_utf8;
use url::{ParseError, Url};
use usp_base::{Link, LoadFault};
use usp_http::{Heard, HeardFault, read_reply};

fn url_fault(e: ParseError) -> PlayFault
    ensures { IsUrlFault e result }
{
    match e {
        ParseError::OutOfMemory => PlayFault::NoMemory,
        ParseError::Overflow => PlayFault::NoMemory,
        _ => PlayFault::BadUri,
    }
}

/// The URL of a text.
pub(crate) fn url_of(alloc: Global, text: &[u8]) -> Result<Url, PlayFault>
    ensures { GivesUrl result (url_of None text.now) }
{
    match from_utf8(text) {
        Ok(text) => match Url::parse(alloc, text) {
            Ok(url) => Ok(url),
            Err(e) => Err(url_fault(e)),
        },
        Err(_) => Err(PlayFault::BadUri),
    }
}

/// The URL of a text that may be relative to a base.
pub(crate) fn resolve(base: &Url, text: &[u8]) -> Result<Url, PlayFault>
    ensures { GivesUrl result (url_of (Some base.now) text.now) }
{
    match from_utf8(text) {
        Ok(text) => match base.join(text) {
            Ok(url) => Ok(url),
            Err(e) => Err(url_fault(e)),
        },
        Err(_) => Err(PlayFault::BadUri),
    }
}

/// Whether the URL is asked for over HTTP.
pub(crate) fn is_web(url: &Url) -> bool
    ensures { result ≡ is_web url.now.scheme }
{
    url.scheme() == "http" || url.scheme() == "https"
}

fn push_port(alloc: Global, text: &mut Vec<u8>, port: Option<u16>) -> Result<(), AllocError>
    ensures { OnOk result (text.new.items ≡ text.old.items ++ port_text port) }
{
    if let Some(port) = port {
        let digits = format!(in alloc; ":{port}")?;
        text.extend_from_slice(digits.as_bytes())?;
    }
    Ok(())
}

/// The authority of a URL, as the Host field has it.
pub(crate) fn authority_of(alloc: Global, url: &Url) -> Result<Vec<u8>, AllocError>
    ensures { IfOk result (λ text. text.items ≡ authority_of url.now) }
{
    let mut text = Vec::from_slice(alloc, url.host_str().unwrap_or("").as_bytes())?;
    push_port(alloc, &mut text, url.port())?;
    Ok(text)
}

fn push_query(text: &mut Vec<u8>, query: Option<&str>) -> Result<(), AllocError>
    ensures { OnOk result (text.new.items
        ≡ text.old.items ++ query_text (option_copied query.entry)) }
{
    if let Some(query) = query {
        text.extend_from_slice(b"?")?;
        text.extend_from_slice(query.as_bytes())?;
    }
    Ok(())
}

fn push_cookies(text: &mut Vec<u8>, cookies: Option<&[u8]>) -> Result<(), AllocError>
    ensures { OnOk result (text.new.items
        ≡ text.old.items ++ cookie_text (option_copied cookies.entry)) }
{
    if let Some(cookies) = cookies {
        text.extend_from_slice(b"Cookie: ")?;
        text.extend_from_slice(cookies)?;
        text.extend_from_slice(b"\r\n")?;
    }
    Ok(())
}

/// The head of the request for a URL.
#[tactic(auto, unfolding(crate::specs::Requests::head_of))]
pub(crate) fn head_of(
    alloc: Global,
    url: &Url,
    authority: &[u8],
    cookies: Option<&[u8]>,
) -> Result<Vec<u8>, AllocError>
    requires { authority.now ≡ authority_of url.now }
    ensures { IfOk result (λ text. text.items ≡ head_of url.now (option_copied cookies.entry)) }
{
    let mut text = Vec::new(alloc);
    text.extend_from_slice(b"GET ")?;
    text.extend_from_slice(url.path().as_bytes())?;
    push_query(&mut text, url.query())?;
    text.extend_from_slice(b" HTTP/1.1\r\nHost: ")?;
    text.extend_from_slice(authority)?;
    text.extend_from_slice(b"\r\n")?;
    push_cookies(&mut text, cookies)?;
    text.extend_from_slice(b"Connection: close\r\n\r\n")?;
    Ok(text)
}

/// Sends a head to an address, and hears the reply.
pub(crate) fn exchange<L: Link>(
    alloc: Global,
    link: &mut L,
    address: &[u8],
    head: &[u8],
) -> Result<Heard, PlayFault>
    ensures told { Exchanges (L.asks link.old) (L.asks link.new) address.now head.now result }
    ensures cause { HasCause (L.link_count link.old) (L.link_count link.new)
        (result ≡ Err LinkFault) }
{
    match link.ask(alloc, address, head) {
        Ok(bytes) => match read_reply(alloc, &bytes) {
            Ok(reply) => Ok(reply),
            Err(HeardFault::BadReply) => Err(PlayFault::BadReply),
            Err(HeardFault::NoMemory) => Err(PlayFault::NoMemory),
        },
        Err(LoadFault::Failed) => Err(PlayFault::LinkFault),
        Err(LoadFault::NoMemory) => Err(PlayFault::NoMemory),
    }
}
