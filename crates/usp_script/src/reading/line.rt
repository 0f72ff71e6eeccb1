//! One line of a script.
ghost use Rattle.std.specs.Prelude.{◌≡◌, [], ◌∷◌, List, ℕ, IfOk, IsErrOf, MatchOption, true};
ghost use Rattle.std.specs.Option.{is_some};
ghost use Rattle.usp_base.specs.Outside.{HasCause};
ghost use Rattle.usp_script.specs.Drafts.{Draft};
ghost use Rattle.usp_script.specs.Reading.{AreFiles, AsksInOrder, Loaded, NamesFile, Refuses, Takes, asked_with, names_in};

use super::ask::ask_in;
use super::edge::{edge_in, file_in};
use super::key::key_in;
use super::object::object_in;
use super::sealing::token_in;
use crate::draft::Draft;
use crate::memory::NoMemory;
use std::alloc::Global;
use usp_base::{Files, LoadFault};

// The lines that name no file are tried in turn: each begins with a word of its own.
fn take_other(alloc: Global, draft: Draft, line: &[u8]) -> Result<Option<Draft>, NoMemory>
    ensures { IfOk result (λ taken. MatchOption taken
        ((next : Draft) → Takes draft line.now [] next → ⊥)
        (λ next. Takes draft line.now [] next)) }
{
    if let Some(ask) = ask_in(alloc, &draft, line)? {
        return Ok(Some(draft.with_ask(ask)?));
    }
    if let Some(token) = token_in(alloc, &draft, b"grant", line)? {
        return Ok(Some(draft.with_grant(token)?));
    }
    if let Some(token) = token_in(alloc, &draft, b"outside", line)? {
        return Ok(Some(draft.with_outside(token)?));
    }
    if let Some(object) = object_in(alloc, &draft, line)? {
        return Ok(Some(draft.with_object(object)?));
    }
    if let Some(key) = key_in(alloc, &draft, line)? {
        return Ok(Some(draft.with_key(key)?));
    }
    if line == b"then".as_slice() {
        return Ok(Some(draft.with_round(alloc)?));
    }
    Ok(None)
}

/// What the lines say with one more. None exactly where that line is refused.
pub fn take_line<F: Files>(
    alloc: Global,
    files: &mut F,
    draft: Draft,
    line: &[u8],
) -> Result<Option<Draft>, LoadFault>
    ensures taken { IfOk result (λ taken. MatchOption taken
        ((loads : List Loaded) × AreFiles (F.files files.old) loads × Refuses draft line.now loads)
        (λ next. (loads : List Loaded) × AreFiles (F.files files.old) loads
        × Takes draft line.now loads next)) }
    ensures unloaded { IsErrOf result LoadFault.Failed → (name : List ℕ) × NamesFile draft line.now name
        × (F.asked files.new ≡ asked_with (F.asked files.old) (name ∷ [])) }
    ensures same { F.files files.new ≡ F.files files.old }
    ensures asked { AsksInOrder (line.now ∷ []) (F.asked files.old) (F.asked files.new) }
    ensures whole { IfOk result (λ taken. is_some taken ≡ true
        → F.asked files.new ≡ asked_with (F.asked files.old) (names_in (line.now ∷ []))) }
    ensures cause { HasCause (F.file_count files.old) (F.file_count files.new)
        (IsErrOf result LoadFault.Failed) }
{
    let Some(name) = file_in(&draft, line) else {
        return Ok(take_other(alloc, draft, line)?);
    };
    let text = files.load(alloc, name)?;
    let Some(edge) = edge_in(alloc, draft.edges(), &text)? else {
        return Ok(None);
    };
    Ok(Some(draft.with_edge(edge)?))
}
