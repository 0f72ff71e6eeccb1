//! Tokens by their labels.
ghost use Rattle.std.specs.Prelude.{◌≡◌, ◌++◌, IfOk, OnOk, map};
ghost use Rattle.std.specs.Option.{option_copied};
ghost use Rattle.usp_script.specs.Script.{grants_in, numbered};
ghost use Rattle.usp_lab.specs.Tokens.{carried_token, token_for};

use crate::NoMemory;
use std::alloc::Global;
use usp_jws::{Token, split};
use usp_script::{Carried, Label, Round, Script};

/// A copy of a token.
pub(crate) fn copy_of(alloc: Global, token: &Token) -> Result<Token, NoMemory>
    ensures { IfOk result (λ copy. copy ≡ token.now) }
{
    match split(token.text()) {
        Ok(parts) => Ok(Token::of(alloc, &parts)?),
        Err(_) => unreachable!(),
    }
}

// Adds tokens behind others.
fn push_tokens<'a>(all: &mut Vec<&'a Token>, tokens: &'a [Token]) -> Result<(), NoMemory>
    ensures { OnOk result
        (map (λ token. token.now) all.new.items ≡ map (λ token. token.now) all.old.items ++ tokens.now) }
{
    'tokens: for token in tokens {
        all.push(token)?;
    }
    Ok(())
}

/// The tokens that are granted in all rounds, in order.
pub(crate) fn grants_in<'a>(alloc: Global, rounds: &'a [Round]) -> Result<Vec<&'a Token>, NoMemory>
    ensures { IfOk result (λ grants. map (λ token. token.now) grants.items ≡ grants_in rounds.now) }
{
    let mut grants = Vec::new(alloc);
    'rounds: for round in rounds {
        push_tokens(&mut grants, round.grants.rows())?;
    }
    Ok(grants)
}

/// What labels name.
#[derive(Clone, Copy)]
pub(crate) struct Named<'a> {
    pub(crate) script: &'a Script,
    /// The tokens that are granted in all rounds.
    pub(crate) grants: &'a [&'a Token],
    /// What each ask so far issued.
    pub(crate) issued: &'a [Option<Token>],
}

// What stands at a place that is counted from 1.
fn numbered<T>(all: &[T], number: u32) -> Option<&T>
    ensures { option_copied result ≡ numbered all.now number }
{
    all.get((number as usize).saturating_sub(1))
}

// The token of a label, if there is one.
fn token_for<'a>(named: &Named<'a>, label: Label) -> Option<&'a Token>
    requires { map (λ token. token.now) named.now.grants.now ≡ grants_in named.now.script.now.rounds }
    ensures { option_copied result ≡ token_for named.now.script.now named.now.issued.now label }
{
    match label {
        Label::Granted(number) => numbered(named.grants, number).copied(),
        Label::Outside(number) => numbered(named.script.outsides(), number),
        Label::Issued(number) => numbered(named.issued, number)?.as_ref(),
    }
}

/// The token that an ask carries, if it carries one.
pub(crate) fn carried_token<'a>(named: &Named<'a>, carried: Carried) -> Option<&'a Token>
    requires { map (λ token. token.now) named.now.grants.now ≡ grants_in named.now.script.now.rounds }
    ensures { option_copied result ≡ carried_token named.now.script.now named.now.issued.now carried }
{
    match carried {
        Carried::Nothing => None,
        Carried::InQuery(label) => token_for(named, label),
        Carried::InCookie(label) => token_for(named, label),
    }
}
