//! The line of an edge.
ghost use Rattle.std.specs.Prelude.{◌≡◌, ◌<◌, List, ℕ, None, IfOk, IfSome, MatchOption, length};
ghost use Rattle.std.specs.Str.{IsUtf8};
ghost use Rattle.usp_conf.specs.Readings.{Configures};
ghost use Rattle.usp_conf.specs.Values.{ConfValue};
ghost use Rattle.usp_script.specs.Reading.{NamesFile, edge_at};

use super::fields::one_behind;
use crate::MAX_EDGES;
use crate::draft::Draft;
use crate::memory::NoMemory;
use std::alloc::Global;
use std::str::from_utf8;
use usp_conf::{Conf, read_conf};

/// The place of the edge of that name. None exactly where there is none.
pub fn edge_named(edges: &[Conf], name: &[u8]) -> Option<usize>
    ensures value { result ≡ edge_at edges.now name.now }
    ensures within { IfSome result (λ place. place < length edges.now) }
{
    edges
        .iter()
        .position(|edge| edge.edge().text().as_bytes() == name)
}

/// The name of the file in a line `edge FILE`. None exactly where the line is none, or no edge may stand here.
pub fn file_in<'a>(draft: &Draft, line: &'a [u8]) -> Option<&'a str>
    ensures { MatchOption result
        ((name : List ℕ) → NamesFile draft.now line.now name → ⊥)
        (λ name. NamesFile draft.now line.now name.now) }
{
    if draft.has_begun() || !draft.objects().is_empty() || draft.edges().len() >= MAX_EDGES {
        return None;
    }
    let name = one_behind(line, b"edge")?;
    from_utf8(name).ok()
}

// The configuration that a text is. None exactly where it is none.
fn conf_of(alloc: Global, text: &[u8]) -> Result<Option<Conf>, NoMemory>
    ensures { IfOk result (λ found. MatchOption found
        ((edge : ConfValue) → Configures text.now edge → ⊥)
        (λ edge. Configures text.now edge)) }
{
    let fault = match read_conf(alloc, text) {
        Ok(conf) => return Ok(Some(conf)),
        Err(fault) => fault,
    };
    if fault.is_memory() {
        return Err(NoMemory);
    }
    Ok(None)
}

/// The edge whose configuration a text is, of another name than those. None exactly where it is none.
pub fn edge_in(alloc: Global, edges: &[Conf], text: &[u8]) -> Result<Option<Conf>, NoMemory>
    ensures { IfOk result (λ found. MatchOption found
        ((edge : ConfValue) → Configures text.now edge → edge_at edges.now edge.edge ≡ None → ⊥)
        (λ edge. Configures text.now edge × (edge_at edges.now edge.edge ≡ None))) }
{
    let Some(edge) = conf_of(alloc, text)? else {
        return Ok(None);
    };
    if edge_named(edges, edge.edge().text().as_bytes()).is_some() {
        return Ok(None);
    }
    Ok(Some(edge))
}
