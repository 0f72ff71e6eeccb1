//! The line of an ask.
ghost use Rattle.std.specs.Prelude.{◌≡◌, ◌↔◌, List, ℕ, IfOk, IsTrue, MatchOption, Some};
ghost use Rattle.usp_package.specs.Package.{nothing, package_of};
ghost use Rattle.usp_script.specs.Reading.{AddsAsk, Carries, fields};
ghost use Rattle.usp_script.specs.Script.{IsBare};
ghost use Rattle.usp_script.specs.declared.ask.Carried.{Carried};
ghost use Rattle.usp_script.specs.declared.ask.LabAsk.{LabAsk};

use super::edge::edge_named;
use super::fields::four_behind;
use super::label::label_in;
use crate::draft::Draft;
use crate::memory::NoMemory;
use crate::{Carried, LabAsk, MAX_ASKS};
use std::alloc::Global;
use usp_base::{MOMENT_BOUND, cut_at, read_number};
use usp_package::{AttrName, Found, find};
use usp_rules::normal_form;
use usp_uri::Uri;

// How a token is carried, by the last fields of an ask. None exactly where they do not say it.
fn carried_in(draft: &Draft, last: &[u8]) -> Option<Carried>
    ensures { MatchOption result
        ((count : ℕ) (words : List (List ℕ)) (carried : Carried) → fields count last.now ≡ Some words
        → Carries draft.now words carried → ⊥)
        (λ carried. (count : ℕ) × (words : List (List ℕ)) × (fields count last.now ≡ Some words)
        × Carries draft.now words carried) }
{
    if last == b"none".as_slice() {
        return Some(Carried::Nothing);
    }
    let (word, text) = cut_at(last, b' ')?;
    if word == b"query".as_slice() {
        return Some(Carried::InQuery(label_in(draft, text)?));
    }
    if word == b"cookie".as_slice() {
        return Some(Carried::InCookie(label_in(draft, text)?));
    }
    None
}

// Whether the URI has no package.
fn has_no_package(attribute: &AttrName, uri: &Uri) -> bool
    ensures { IsTrue result ↔ package_of attribute.now uri.now ≡ nothing }
{
    match find(attribute, uri.text()) {
        Found::None => true,
        Found::Bad { .. } | Found::At { .. } => false,
    }
}

// Whether no package stands where a token is to go.
fn is_bare(attribute: &AttrName, uri: &Uri, carried: Carried) -> bool
    ensures { IsTrue result ↔ IsBare attribute.now uri.now carried }
{
    match carried {
        Carried::InQuery(_) => has_no_package(attribute, uri),
        Carried::Nothing | Carried::InCookie(_) => true,
    }
}

/// What a line `ask EDGE MOMENT URI query LABEL`, or with `cookie LABEL` or `none` at its end, adds. None exactly where
/// it is no such line, or is refused.
pub fn ask_in(alloc: Global, draft: &Draft, line: &[u8]) -> Result<Option<LabAsk>, NoMemory>
    ensures { IfOk result (λ found. MatchOption found
        ((ask : LabAsk) → AddsAsk draft.now line.now ask → ⊥)
        (λ ask. AddsAsk draft.now line.now ask)) }
{
    if draft.asked() >= MAX_ASKS {
        return Ok(None);
    }
    let Some((name, moment, typed, last)) = four_behind(line, b"ask") else {
        return Ok(None);
    };
    let Some(edge) = edge_named(draft.edges(), name) else {
        return Ok(None);
    };
    let Some(moment) = read_number(moment, MOMENT_BOUND - 1) else {
        return Ok(None);
    };
    let Some(carried) = carried_in(draft, last) else {
        return Ok(None);
    };
    let Some(uri) = normal_form(alloc, typed)? else {
        return Ok(None);
    };
    let attribute = &draft.edges()[edge].site().profile().attribute;
    if !is_bare(attribute, &uri, carried) {
        return Ok(None);
    }
    let edge = edge as u32;
    Ok(Some(LabAsk {
        edge,
        moment,
        uri,
        carried,
    }))
}
