//! The lines of a text.
ghost use Rattle.std.specs.Prelude.{◌≡◌, ◌+◌, ◌<◌, ◌++◌, ◌∷◌, [], All, drop, length, OnOk};
ghost use Rattle.std.specs.Option.{ForSome};
ghost use Rattle.usp_lab.specs.LabText.{turn_text, verdict_text};
ghost use Rattle.usp_lab.specs.Telling.{
  Grows,
  IsAmong,
  TellsAsk,
  TellsAsks,
  TellsOrigin,
  ask_front,
  calls_lines,
};

use super::chains::{Trail, push_origin};
use crate::numbers::push_number;
use crate::{AskReport, NoMemory};
use std::alloc::Global;
use usp_conf::Conf;
use usp_edge::Verdict;
use usp_nonce::Turned;

fn push_verdict(alloc: Global, text: &mut Vec<u8>, ask: &AskReport) -> Result<(), NoMemory>
    ensures { OnOk result
        (text.new.items ≡ text.old.items ++ verdict_text ask.now.status ask.now.verdict) }
{
    match ask.verdict {
        Verdict::Admitted => {
            text.extend_from_slice(b" admitted ")?;
            push_number(alloc, text, u64::from(ask.status))?;
        }
        Verdict::Denied(rule) => {
            text.extend_from_slice(b" denied ")?;
            push_number(alloc, text, rule.number())?;
            text.push(b' ')?;
            text.extend_from_slice(rule.name())?;
        }
    }
    Ok(())
}

fn push_turn(alloc: Global, text: &mut Vec<u8>, call: Option<Turned>) -> Result<(), NoMemory>
    ensures { OnOk result (text.new.items ≡ text.old.items ++ turn_text call) }
{
    if let Some(turned) = call {
        text.extend_from_slice(b" nonce ")?;
        push_number(alloc, text, turned.place)?;
        text.extend_from_slice(b" at ")?;
        push_number(alloc, text, turned.moment)?;
    }
    Ok(())
}

// The line of an ask at the edge of that name, up to its chain.
fn push_front(
    alloc: Global,
    text: &mut Vec<u8>,
    name: &[u8],
    number: u64,
    ask: &AskReport,
) -> Result<(), NoMemory>
    ensures { OnOk result (text.new.items ≡ text.old.items ++ ask_front name.now number ask.now) }
{
    push_number(alloc, text, number)?;
    text.push(b' ')?;
    text.extend_from_slice(name)?;
    push_verdict(alloc, text, ask)?;
    push_turn(alloc, text, ask.call)?;
    Ok(())
}

// The chain of the token that an ask brought, where it was admitted.
fn push_chain_of(
    alloc: Global,
    text: &mut Vec<u8>,
    trail: &Trail<'_>,
    ask: &AskReport,
) -> Result<(), NoMemory>
    requires links { length trail.now.links.now ≡ length trail.now.ledger.now }
    requires place { ForSome ask.now.origin (λ place. place < length trail.now.ledger.now) }
    ensures { OnOk result (Grows text.old.items text.new.items
        (TellsOrigin trail.now.ledger.now trail.now.links.now ask.now.verdict ask.now.origin)) }
{
    match ask.verdict {
        Verdict::Admitted => push_origin(alloc, text, trail, ask.origin)?,
        Verdict::Denied(_) => (),
    }
    Ok(())
}

/// What the lines of asks are told by: the edges, and the trail of each token.
#[derive(Clone, Copy)]
pub struct Page<'a> {
    pub edges: &'a [Conf],
    pub trail: Trail<'a>,
}

fn push_ask(
    alloc: Global,
    text: &mut Vec<u8>,
    page: &Page<'_>,
    number: u64,
    ask: &AskReport,
) -> Result<(), NoMemory>
    requires links { length page.now.trail.links.now ≡ length page.now.trail.ledger.now }
    requires among { IsAmong (length page.now.edges.now) (length page.now.trail.ledger.now) ask.now }
    ensures { OnOk result (Grows text.old.items text.new.items
        (TellsAsk page.now.edges.now page.now.trail.ledger.now page.now.trail.links.now
        number ask.now)) }
{
    let edge = &page.edges[ask.edge as usize];
    push_front(alloc, text, edge.edge().text().as_bytes(), number, ask)?;
    push_chain_of(alloc, text, &page.trail, ask)?;
    text.push(b'\n')?;
    Ok(())
}

/// Puts the lines of asks behind a text.
pub fn push_asks(
    alloc: Global,
    text: &mut Vec<u8>,
    page: &Page<'_>,
    asks: &[AskReport],
) -> Result<(), NoMemory>
    requires links { length page.now.trail.links.now ≡ length page.now.trail.ledger.now }
    requires among { All (IsAmong (length page.now.edges.now)
        (length page.now.trail.ledger.now)) asks.now }
    ensures { OnOk result (Grows text.old.items text.new.items
        (TellsAsks page.now.edges.now page.now.trail.ledger.now page.now.trail.links.now
        1 asks.now)) }
{
    'asks: for (i, ask) in asks.iter().enumerate() {
        push_ask(alloc, text, page, i as u64 + 1, ask)?;
    }
    Ok(())
}

/// Puts the lines of edges behind a text, by the numbers of their calls.
pub fn push_edges(
    alloc: Global,
    text: &mut Vec<u8>,
    edges: &[Conf],
    calls: &[u64],
) -> Result<(), NoMemory>
    requires { length calls.now ≡ length edges.now }
    ensures { OnOk result
        (text.new.items ≡ text.old.items ++ calls_lines calls.now 0 edges.now) }
{
    'edges: for (i, edge) in edges.iter().enumerate() {
        text.extend_from_slice(b"edge ")?;
        text.extend_from_slice(edge.edge().text().as_bytes())?;
        text.extend_from_slice(b" calls ")?;
        push_number(alloc, text, calls[i])?;
        text.push(b'\n')?;
    }
    Ok(())
}
