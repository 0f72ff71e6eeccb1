//! What an edge prints behind its last connection: its requests, worker after worker, and how many nonce calls they
//! made.
ghost use Rattle.std.specs.Prelude.{◌≡◌, ◌+◌, ◌++◌, ◌∷◌, [], drop, map, position, take, IfOk, OnOk};
ghost use Rattle.std.specs.Fmt.{decimal};
ghost use Rattle.usp_tool.specs.Edge.Text.{
  edge_text,
  end_line,
  end_name,
  is_mark,
  last_line_of,
  line_front,
  note_line,
  note_lines,
  plain_part,
  turn_text,
  verdict_text,
  visit_lines,
  visits_lines,
  workers_lines,
};
ghost use Rattle.usp_tool.specs.Edge.Desks.{desk_by};

use super::{Log, Visit, Worker};
use crate::memory::NoMemory;
use crate::output::push_number;
use std::alloc::Global;
use usp_base::{Clock, Door, Objects};
use usp_edge::{End, Note, Verdict};
use usp_nonce::Turned;

// A connection by its worker's number and its own, each from 1.
#[derive(Clone, Copy)]
struct Place {
    worker: u64,
    connection: u64,
}

fn first_mark(uri: &[u8]) -> Option<usize>
    ensures { result ≡ position is_mark uri.now }
{
    uri.iter().position(|b| *b == b'?' || *b == b';')
}

// A URI without its query and the parameters of its path.
fn plain_part(uri: &[u8]) -> &[u8]
    ensures { result.now ≡ plain_part uri.now }
{
    match first_mark(uri) {
        None => uri,
        Some(place) => &uri[..place],
    }
}

fn push_verdict(alloc: Global, text: &mut Vec<u8>, note: &Note) -> Result<(), NoMemory>
    ensures { OnOk result (text.new.items ≡ text.old.items ++ verdict_text note.now.verdict note.now.status) }
{
    match note.verdict {
        Verdict::Admitted => {
            text.extend_from_slice(b"admitted ")?;
            push_number(alloc, text, u64::from(note.status))?;
        }
        Verdict::Denied(rule) => {
            text.extend_from_slice(b"denied ")?;
            push_number(alloc, text, rule.number())?;
            text.push(b' ')?;
            text.extend_from_slice(rule.name())?;
        }
    }
    Ok(())
}

fn push_turn(alloc: Global, text: &mut Vec<u8>, call: Option<Turned>) -> Result<(), NoMemory>
    ensures { OnOk result (text.new.items ≡ text.old.items ++ turn_text call) }
{
    if let Some(turned) = call {
        text.extend_from_slice(b" nonce ")?;
        push_number(alloc, text, turned.place)?;
        text.extend_from_slice(b" at ")?;
        push_number(alloc, text, turned.moment)?;
    }
    Ok(())
}

fn end_name(end: End) -> &'static [u8]
    ensures { result.now ≡ end_name end }
{
    match end {
        End::Closed => b"Closed",
        End::CutShort => b"CutShort",
        End::BadHead => b"BadHead",
        End::HeadTooLong => b"HeadTooLong",
        End::ManyHeaders => b"ManyHeaders",
        End::ReadFault => b"ReadFault",
        End::Body => b"Body",
        End::Enough => b"Enough",
        End::WriteFault => b"WriteFault",
        End::NoMemory => b"NoMemory",
    }
}

// What each line of a connection begins with.
fn push_front(alloc: Global, text: &mut Vec<u8>, place: Place) -> Result<(), NoMemory>
    ensures { OnOk result (text.new.items ≡ text.old.items ++ line_front place.worker place.connection) }
{
    push_number(alloc, text, place.worker)?;
    text.push(b' ')?;
    push_number(alloc, text, place.connection)?;
    text.push(b' ')?;
    Ok(())
}

fn push_note(alloc: Global, text: &mut Vec<u8>, place: Place, note: &Note) -> Result<(), NoMemory>
    ensures { OnOk result (text.new.items ≡ text.old.items ++ note_line place.worker place.connection note.now) }
{
    push_front(alloc, text, place)?;
    push_verdict(alloc, text, note)?;
    push_turn(alloc, text, note.call)?;
    text.push(b' ')?;
    text.extend_from_slice(plain_part(note.uri.bytes()))?;
    text.push(b'\n')?;
    Ok(())
}

fn push_notes(
    alloc: Global,
    text: &mut Vec<u8>,
    place: Place,
    notes: &[Note],
) -> Result<(), NoMemory>
    ensures { OnOk result (text.new.items ≡ text.old.items ++ note_lines place.worker place.connection notes.now) }
{
    'notes: for note in notes {
        push_note(alloc, text, place, note)?;
    }
    Ok(())
}

fn push_end(alloc: Global, text: &mut Vec<u8>, place: Place, end: End) -> Result<(), NoMemory>
    ensures { OnOk result (text.new.items ≡ text.old.items ++ end_line place.worker place.connection end) }
{
    push_front(alloc, text, place)?;
    text.extend_from_slice(b"end ")?;
    text.extend_from_slice(end_name(end))?;
    text.push(b'\n')?;
    Ok(())
}

// The first so many of the notes, or all.
fn first_notes(notes: &[Note], count: u64) -> (&[Note], &[Note])
    ensures first { result.0.now ≡ take count notes.now }
    ensures rest { result.1.now ≡ drop count notes.now }
{
    if count < notes.len() as u64 {
        notes.split_at(count as usize)
    } else {
        (notes, &[])
    }
}

// Puts a connection behind a text: its notes, the first of those that are left, and then its end.
fn push_visit<'a>(
    alloc: Global,
    text: &mut Vec<u8>,
    place: Place,
    notes: &'a [Note],
    visit: Visit,
) -> Result<&'a [Note], NoMemory>
    ensures text { OnOk result (text.new.items
        ≡ text.old.items ++ visit_lines place.worker place.connection notes.now visit) }
    ensures rest { IfOk result (λ rest. rest.now ≡ drop visit.notes notes.now) }
{
    let (own, rest) = first_notes(notes, visit.notes);
    push_notes(alloc, text, place, own)?;
    push_end(alloc, text, place, visit.end)?;
    Ok(rest)
}

// Puts the connections of a worker behind a text.
fn push_log(alloc: Global, text: &mut Vec<u8>, worker: u64, log: &Log) -> Result<(), NoMemory>
    ensures { OnOk result (text.new.items
        ≡ text.old.items ++ visits_lines worker 1 log.now.notes.items log.now.visits.items) }
{
    let mut rest: &[Note] = &log.notes;
    'visits: for (i, visit) in log.visits.iter().enumerate() {
        let place = Place {
            worker,
            connection: i as u64 + 1,
        };
        rest = push_visit(alloc, text, place, rest, *visit)?;
    }
    Ok(())
}

// Puts the connections of all workers behind a text.
fn push_workers<D: Door, C: Clock, O: Objects>(
    alloc: Global,
    text: &mut Vec<u8>,
    workers: &[Worker<D, C, O>],
) -> Result<(), NoMemory>
    ensures { OnOk result (text.new.items ≡ text.old.items ++ workers_lines 1
        (map (desk_by D.coming D.given_back D.lines_out D.door_count C.given O.objects O.object_count) workers.now)) }
{
    'workers: for (i, worker) in workers.iter().enumerate() {
        push_log(alloc, text, i as u64 + 1, &worker.shift.log)?;
    }
    Ok(())
}

fn push_last_line(
    alloc: Global,
    text: &mut Vec<u8>,
    name: &[u8],
    calls: u64,
) -> Result<(), NoMemory>
    ensures { OnOk result (text.new.items ≡ text.old.items ++ last_line_of name.now calls) }
{
    text.extend_from_slice(b"edge ")?;
    text.extend_from_slice(name)?;
    text.extend_from_slice(b" calls ")?;
    push_number(alloc, text, calls)?;
    text.push(b'\n')?;
    Ok(())
}

/// The text of an edge with this name, whose workers made so many nonce calls. A line of a request or of an end
/// begins with the number of its worker and that of its connection, each from 1. A request's URI is shown up to its
/// query, and up to the first parameter of its path.
pub fn text_of_edge<D: Door, C: Clock, O: Objects>(
    alloc: Global,
    name: &[u8],
    calls: u64,
    workers: &[Worker<D, C, O>],
) -> Result<Vec<u8>, NoMemory>
    ensures { IfOk result (λ text. text.items ≡ edge_text name.now calls
        (map (desk_by D.coming D.given_back D.lines_out D.door_count C.given O.objects O.object_count) workers.now)) }
{
    let mut text = Vec::new(alloc);
    push_workers(alloc, &mut text, workers)?;
    push_last_line(alloc, &mut text, name, calls)?;
    Ok(text)
}
