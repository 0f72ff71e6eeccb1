//! The line of an object.
ghost use Rattle.std.specs.Prelude.{◌≡◌, List, ℕ, IfOk, MatchOption};
ghost use Rattle.usp_script.specs.Reading.{AddsObject};

use super::edge::edge_named;
use super::fields::three_behind;
use crate::LabObject;
use crate::draft::Draft;
use crate::memory::NoMemory;
use std::alloc::Global;
use usp_base::Octets;
use usp_rules::normal_form;

/// What a line `object EDGE URI TEXT` adds. None exactly where it is no such line, or is refused.
pub fn object_in(alloc: Global, draft: &Draft, line: &[u8]) -> Result<Option<LabObject>, NoMemory>
    ensures { IfOk result (λ found. MatchOption found
        ((place : ℕ) (uri text : List ℕ) → AddsObject draft.now line.now place uri text → ⊥)
        (λ object. AddsObject draft.now line.now object.edge object.uri object.text)) }
{
    if draft.has_begun() {
        return Ok(None);
    }
    let Some((name, typed, text)) = three_behind(line, b"object") else {
        return Ok(None);
    };
    let Some(edge) = edge_named(draft.edges(), name) else {
        return Ok(None);
    };
    let Some(uri) = normal_form(alloc, typed)? else {
        return Ok(None);
    };
    let text = Octets::of(text.to_vec(alloc)?);
    let edge = edge as u32;
    Ok(Some(LabObject { edge, uri, text }))
}
