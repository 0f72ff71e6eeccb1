//! One connection.
ghost use Rattle.std.specs.Prelude.{◌≡◌, ◌≤◌};
ghost use Rattle.usp_base.specs.Runs.{Runs};
ghost use Rattle.usp_edge.specs.Serving.{Closes, Served};
ghost use Rattle.usp_edge.specs.Session.{end_behind, is_last};
ghost use Rattle.usp_edge.specs.declared.limits.TheConstants.{MAX_HEADS};

use crate::replies::closing_text;
use crate::request::Request;
use crate::work::work_on;
use crate::{Edge, End, MAX_HEADS, Nonces, Note};
use std::alloc::Global;
use usp_base::{Clock, Objects, Sink, Wire};
use usp_http::{Head, HeadReader, Next};

// Whether the reply to a head is the connection's last.
fn is_last(head: &Head, full: bool) -> bool
    ensures { result ≡ is_last head.now full }
{
    head.last || full
}

// The end behind a head, if it is one.
fn end_behind(head: &Head, full: bool) -> Option<End>
    ensures { result ≡ end_behind head.now full }
{
    if head.body {
        Some(End::Body)
    } else if head.last {
        Some(End::Closed)
    } else if full {
        Some(End::Enough)
    } else {
        None
    }
}

// Replies to what is no head.
#[tactic(auto, using(crate::proofs::Steps::no_step, crate::proofs::Steps::one_step))]
fn close<W: Sink>(alloc: Global, wire: &mut W, ends: End) -> End
    ensures closes { Closes (W.told wire.old) (W.told wire.new)
        (W.put_count wire.old) (W.put_count wire.new) ends result }
    ensures steps { Runs W.puts wire.old wire.new }
{
    let Ok(text) = closing_text(alloc) else {
        return End::NoMemory;
    };
    match wire.put(text.bytes()) {
        Ok(()) => ends,
        Err(_) => End::WriteFault,
    }
}

/// Serves the requests of one connection, until it ends. What was put on it, the notes that went last into the
/// journal and the end are those of one session over the bytes that were read, with the moments that the clock gave,
/// the turns of the nonces and the answers of the objects. Where a put failed or there was no memory, they are those
/// of a front of it.
pub fn serve_connection<W: Wire, N: Nonces, C: Clock, O: Objects>(
    edge: &Edge<'_>,
    wire: &mut W,
    nonces: &mut N,
    clock: &mut C,
    objects: &mut O,
    journal: &mut Vec<Note>,
) -> End
    requires { MAX_HEADS ≤ N.calls_left nonces.old }
    ensures { Served N.gains edge.now.conf.now (record {
      around = record {
        left = W.left wire.old;
        left_after = W.left wire.new;
        ended = W.ended wire.new;
        faults = W.read_count wire.old;
        faults_after = W.read_count wire.new;
      };
      told = W.told wire.old;
      told_after = W.told wire.new;
      put_faults = W.put_count wire.old;
      put_faults_after = W.put_count wire.new;
    }) (record {
      given = C.given clock.old;
      supplies = record {
        nonces = nonces.old;
        objects = O.objects objects.old;
        faults = O.object_count objects.old;
      };
      journal = journal.old.items;
    }) (record {
      given = C.given clock.new;
      supplies = record {
        nonces = nonces.new;
        objects = O.objects objects.new;
        faults = O.object_count objects.new;
      };
      journal = journal.new.items;
    }) result }
{
    let Ok(mut reader) = HeadReader::new(edge.alloc) else {
        return End::NoMemory;
    };
    let mut heads: u64 = 0;
    'heads: loop {
        let head = match reader.next_head(wire) {
            Next::Found(head) => head,
            Next::Ended => return End::Closed,
            Next::ReadFault => return End::ReadFault,
            Next::NoMemory => return End::NoMemory,
            Next::CutShort => return close(edge.alloc, wire, End::CutShort),
            Next::BadHead => return close(edge.alloc, wire, End::BadHead),
            Next::HeadTooLong => return close(edge.alloc, wire, End::HeadTooLong),
            Next::ManyHeaders => return close(edge.alloc, wire, End::ManyHeaders),
        };
        heads += 1;
        let full = heads == MAX_HEADS;
        let request = Request {
            alloc: edge.alloc,
            kit: edge.kit,
            conf: edge.conf,
            head: &head,
            last: is_last(&head, full),
        };
        let text = match work_on(&request, nonces, clock, objects, journal) {
            Ok(text) => text,
            Err(_) => return End::NoMemory,
        };
        match wire.put(text.bytes()) {
            Ok(()) => {}
            Err(_) => return End::WriteFault,
        }
        if let Some(ends) = end_behind(&head, full) {
            return ends;
        }
    }
}
