//! One ask.
ghost use Rattle.std.specs.Prelude.{◌≡◌, ◌≤◌, ◌<◌, ℕ, List, [], ◌∷◌, Option, IfOk, IfSome, length};
ghost use Rattle.usp_base.specs.declared.limits.TheConstants.{MOMENT_BOUND};
ghost use Rattle.usp_edge.specs.Calls.{Placed};
ghost use Rattle.usp_edge.specs.declared.limits.TheConstants.{MAX_HEADS};
ghost use Rattle.usp_edge.specs.declared.note.Note.{Note};
ghost use Rattle.usp_issue.specs.declared.limits.TheConstants.{MAX_TOKEN};
ghost use Rattle.usp_script.specs.Script.{ScriptValue};
ghost use Rattle.usp_lab.specs.Asking.{HasServed, HoldsHead};
ghost use Rattle.usp_lab.specs.Tokens.{carried_token};

use crate::clock::AskClock;
use crate::named::has_named_keys;
use crate::objects::ScriptObjects;
use crate::{Calm, NoMemory};
use std::alloc::Global;
use usp_conf::Conf;
use usp_edge::{Edge, End, Nonces, Note, serve_connection};
use usp_ext::Kit;
use usp_script::{LabAsk, LabObject};

/// What the asks of a script are served by, beside their lines and their nonces.
#[derive(Clone, Copy)]
pub(crate) struct Asking<'a> {
    pub alloc: Global,
    /// The tests of claims that a configuration may name.
    pub kit: &'a Kit,
    pub edges: &'a [Conf],
    pub objects: &'a [LabObject],
}

// The one note of a journal.
fn only_note(journal: Vec<Note>) -> Note
    requires { (note : Note) × (journal.items ≡ note ∷ []) }
    ensures { journal.items ≡ result ∷ [] }
{
    let mut journal = journal;
    match journal.pop() {
        Some(note) => note,
        None => unreachable!(),
    }
}

/// Serves an ask at its edge, over a line that holds its head, and gives what was noted of it.
pub(crate) fn serve_ask<W: Calm, N: Nonces>(
    asking: &Asking<'_>,
    ask: &LabAsk,
    line: &mut W,
    nonces: &mut N,
) -> Result<Note, NoMemory>
    requires edge { ask.now.edge < length asking.now.edges.now }
    requires moment { ask.now.moment < MOMENT_BOUND }
    requires head { (token : Option (List ℕ))
        × HoldsHead asking.now.edges.now ask.now token (W.left line.old) (W.told line.old) }
    requires room { MAX_HEADS ≤ N.calls_left nonces.old }
    // Whatever the asks before it issued: where its token is the one that the head has, it was served as the script
    // says.
    ensures served { IfOk result (λ note. (script : ScriptValue) (issued : List (Option (List ℕ))) (known : ℕ)
        → script.edges ≡ asking.now.edges.now → script.objects ≡ asking.now.objects.now
        → HoldsHead script.edges ask.now (carried_token script issued ask.now.carried)
        (W.left line.old) (W.told line.old)
        → HasServed N.gains nonces.old nonces.new script issued known ask.now note
        (W.left line.new) (W.told line.new)) }
    // What was issued is short enough to be carried.
    ensures short { IfOk result (λ note. IfSome note.issued (λ token. length token ≤ MAX_TOKEN)) }
    // At most as many calls were made as a connection may make, also where there was no memory.
    ensures gained { (calls : List Placed) × N.gains nonces.old nonces.new calls × (length calls ≤ MAX_HEADS) }
{
    let conf = &asking.edges[ask.edge as usize];
    has_named_keys(conf);
    let edge = Edge {
        alloc: asking.alloc,
        kit: asking.kit,
        conf,
    };
    let mut clock = AskClock::new(ask.moment);
    let mut objects = ScriptObjects {
        objects: asking.objects,
        edge: ask.edge,
    };
    let mut journal = Vec::new(asking.alloc);
    match serve_connection(&edge, line, nonces, &mut clock, &mut objects, &mut journal) {
        End::NoMemory => Err(NoMemory),
        _ => Ok(only_note(journal)),
    }
}
