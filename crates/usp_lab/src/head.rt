//! The bytes of an ask's connection.
ghost use Rattle.std.specs.Prelude.{◌≡◌, ◌++◌, ℕ, List, [], IfOk, IfSome, Ok, OnOk};
ghost use Rattle.std.specs.Option.{option_copied};
ghost use Rattle.usp_http.specs.Finding.{IsHead};
ghost use Rattle.usp_script.specs.Script.{IsBare, attribute_of};
ghost use Rattle.usp_uri.specs.Components.{after_authority};
ghost use Rattle.usp_uri.specs.Faults.{normal_of};
ghost use Rattle.usp_lab.specs.LabHead.{IsBorne, asked_uri, cookie_of, lab_head, lab_parts};

use crate::NoMemory;
use std::alloc::Global;
use usp_conf::Conf;
use usp_package::{AttrName, embed};
use usp_script::{Carried, LabAsk};
use usp_uri::{Uri, cut_authority};

// The URI that is asked for: the ask's own, or with the token as its package.
fn asked_uri(
    alloc: Global,
    name: &AttrName,
    ask: &LabAsk,
    token: Option<&[u8]>,
) -> Result<Vec<u8>, NoMemory>
    requires bare { IsBare name.now ask.now.uri ask.now.carried }
    requires borne { IfSome (option_copied token) IsBorne }
    ensures text { IfOk result (λ text. text.items
        ≡ asked_uri name.now ask.now.uri ask.now.carried (option_copied token.entry)) }
    ensures normal { normal_of ask.now.uri ≡ Ok ask.now.uri }
{
    let own = ask.uri.text();
    match (ask.carried, token) {
        (Carried::InQuery(_), Some(token)) => Ok(embed(alloc, name, &ask.uri, token)?),
        _ => Ok(own.to_vec(alloc)?),
    }
}

// The path and the query of a text that begins with a URI.
fn behind_authority<'a>(uri: &Uri, text: &'a [u8]) -> &'a [u8]
    requires normal { normal_of uri.now ≡ Ok uri.now }
    requires begins { (more : List ℕ) × (text.now ≡ uri.now ++ more) }
    ensures { result.now ≡ after_authority text.now }
{
    let (_, rest) = text.split_at(uri.scheme().len() + 3);
    let (_, target) = cut_authority(rest);
    target
}

// Writes the line of the cookie, where the ask carries a token in one.
fn push_cookie(
    head: &mut Vec<u8>,
    name: &[u8],
    carried: Carried,
    token: Option<&[u8]>,
) -> Result<(), NoMemory>
    ensures { OnOk result (head.new.items
        ≡ head.old.items ++ cookie_of name.now carried (option_copied token.entry)) }
{
    match (carried, token) {
        (Carried::InCookie(_), Some(token)) => {
            head.extend_from_slice(b"Cookie: ")?;
            head.extend_from_slice(name)?;
            head.extend_from_slice(b"=")?;
            head.extend_from_slice(token)?;
            head.extend_from_slice(b"\r\n")?;
            Ok(())
        }
        _ => Ok(()),
    }
}

/// The bytes of an ask's connection: the head of a GET at an edge, with the token that the ask carries, where it
/// carries one (RFC 9112 sections 2 and 3). The token stands in the query or in a cookie, as the ask says.
pub fn head_of(
    alloc: Global,
    edge: &Conf,
    ask: &LabAsk,
    token: Option<&[u8]>,
) -> Result<Vec<u8>, NoMemory>
    requires bare { IsBare (attribute_of edge.now) ask.now.uri ask.now.carried }
    requires borne { IfSome (option_copied token) IsBorne }
    ensures head { IfOk result (λ head. head.items ≡ lab_head edge.now ask.now (option_copied token.entry)) }
    // It is read as a whole head with these parts, and nothing behind it.
    ensures whole { IfOk result (λ head.
        IsHead (lab_parts edge.now ask.now (option_copied token.entry)) head.items []) }
{
    let name = &edge.site().profile().attribute;
    let asked = asked_uri(alloc, name, ask, token)?;
    let mut head = Vec::new(alloc);
    head.extend_from_slice(b"GET ")?;
    head.extend_from_slice(behind_authority(&ask.uri, &asked))?;
    head.extend_from_slice(b" HTTP/1.1\r\nHost: ")?;
    head.extend_from_slice(ask.uri.authority())?;
    head.extend_from_slice(b"\r\n")?;
    push_cookie(&mut head, name.text(), ask.carried, token)?;
    head.extend_from_slice(b"\r\n")?;
    Ok(head)
}
