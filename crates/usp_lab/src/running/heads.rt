//! The heads of the asks of a round.
ghost use Rattle.std.specs.Prelude.{◌≡◌, All, IfOk, IfSome, map};
ghost use Rattle.std.specs.Option.{option_copied};
ghost use Rattle.usp_script.specs.Script.{IsAsk, grants_in};
ghost use Rattle.usp_lab.specs.Asked.{AreHeads, IsHeadOf};
ghost use Rattle.usp_lab.specs.LabHead.{IsBorne};
ghost use Rattle.usp_lab.specs.UnderWay.{IsShort};

use super::tokens::{Named, carried_token};
use crate::NoMemory;
use crate::head::head_of;
use std::alloc::Global;
use usp_jws::Token;
use usp_script::LabAsk;

// The text of a token, if there is one.
fn text_of(token: Option<&Token>) -> Option<&[u8]>
    requires { IfSome (option_copied token) IsShort }
    ensures value { option_copied result ≡ option_copied token.entry }
    ensures borne { IfSome (option_copied result) IsBorne }
{
    match token {
        Some(token) => Some(token.text()),
        None => None,
    }
}

// The head of an ask.
fn head_at(alloc: Global, named: &Named<'_>, ask: &LabAsk) -> Result<Vec<u8>, NoMemory>
    requires ask { IsAsk named.now.script.now.edges ask.now }
    requires grants { map (λ token. token.now) named.now.grants.now ≡ grants_in named.now.script.now.rounds }
    requires issued { All (λ issued. IfSome issued IsShort) named.now.issued.now }
    ensures { IfOk result (λ head.
        IsHeadOf named.now.script.now named.now.issued.now ask.now head.items) }
{
    let confs = named.script.edges();
    let edge = &confs[ask.edge as usize];
    let token = carried_token(named, ask.carried);
    let head = head_of(alloc, edge, ask, text_of(token))?;
    Ok(head)
}

/// The heads of asks, in their order.
pub(crate) fn heads_of(
    alloc: Global,
    named: &Named<'_>,
    asks: &[LabAsk],
) -> Result<Vec<Vec<u8>>, NoMemory>
    requires asks { All (IsAsk named.now.script.now.edges) asks.now }
    requires grants { map (λ token. token.now) named.now.grants.now ≡ grants_in named.now.script.now.rounds }
    requires issued { All (λ issued. IfSome issued IsShort) named.now.issued.now }
    ensures { IfOk result (λ heads. AreHeads named.now.script.now named.now.issued.now asks.now
        (map (λ head. head.items) heads.items)) }
{
    let mut heads = Vec::new(alloc);
    'asks: for ask in asks {
        heads.push(head_at(alloc, named, ask)?)?;
    }
    Ok(heads)
}
