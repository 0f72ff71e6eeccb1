//! The work of one worker.
ghost use Rattle.std.specs.Prelude.{◌≡◌, ◌≤◌, ◌<◌, ◌*◌, ◌++◌, ◌∷◌, [], OnOk, length, vec_len};
ghost use Rattle.std.specs.Vec.{vec_capacity};
ghost use Rattle.usp_edge.specs.declared.limits.TheConstants.{MAX_HEADS};
ghost use Rattle.usp_tool.specs.Edge.AtDoor.{Works};
ghost use Rattle.usp_tool.specs.declared.limits.TheConstants.{MAX_CONNECTIONS};

use super::{DoorEnd, Visit};
use std::alloc::AllocError;
use usp_base::{Clock, Door, Objects};
use usp_edge::{Edge, Nonces, Note, serve_connection};

/// What a worker serves by.
#[derive(Clone, Copy)]
pub struct Service<'a> {
    pub edge: Edge<'a>,
    /// How many connections it serves at most.
    pub most: u64,
}

/// What a worker leaves.
#[derive(Drop)]
pub struct Log {
    /// What is noted of the requests, in order.
    pub notes: Vec<Note>,
    /// The served connections, in order.
    pub visits: Vec<Visit>,
}

// Makes room for one visit.
fn make_room(visits: &mut Vec<Visit>) -> Result<(), AllocError>
    ensures room { OnOk result (vec_len visits.new < vec_capacity visits.new) }
    ensures same { visits.new.items ≡ visits.old.items }
{
    visits.reserve(1)?;
    Ok(())
}

// How many notes there are.
fn count(notes: &Vec<Note>) -> u64
    ensures { result ≡ length notes.now.items }
{
    notes.len() as u64
}

// Adds a visit, for which there is room.
fn push_visit(visits: &mut Vec<Visit>, visit: Visit)
    requires { vec_len visits.old < vec_capacity visits.old }
    ensures { visits.new.items ≡ visits.old.items ++ visit ∷ [] }
{
    visits.push(visit).unwrap();
}

/// Serves the connections that a door gives, one after the other, and gives each back. Each adds its notes and one
/// visit to the log. Room for a visit is made before the door is asked for its connection.
pub fn serve_door<D: Door, N: Nonces, C: Clock, O: Objects>(
    service: &Service<'_>,
    door: &mut D,
    nonces: &mut N,
    clock: &mut C,
    objects: &mut O,
    log: &mut Log,
) -> DoorEnd
    requires most { (1 ≤ service.now.most) × (service.now.most ≤ MAX_CONNECTIONS) }
    requires left { MAX_HEADS * service.now.most ≤ N.calls_left nonces.old }
    ensures works { Works N.gains service.now.edge.conf.now service.now.most
        (record {
          coming = D.coming door.old;
          back = D.given_back door.old;
          visits = log.old.visits.items;
          met = record {
            given = C.given clock.old;
            supplies = record {
              nonces = nonces.old;
              objects = O.objects objects.old;
              faults = O.object_count objects.old;
            };
            journal = log.old.notes.items;
          };
        })
        (record {
          coming = D.coming door.new;
          back = D.given_back door.new;
          visits = log.new.visits.items;
          met = record {
            given = C.given clock.new;
            supplies = record {
              nonces = nonces.new;
              objects = O.objects objects.new;
              faults = O.object_count objects.new;
            };
            journal = log.new.notes.items;
          };
        })
        (D.door_count door.old) (D.door_count door.new) result }
    ensures out { D.lines_out door.new ≡ D.lines_out door.old }
{
    let mut served: u64 = 0;
    'visits: loop {
        if served == service.most {
            return DoorEnd::Most;
        }
        match make_room(&mut log.visits) {
            Ok(()) => {}
            Err(_) => return DoorEnd::NoMemory,
        }
        let mut line = match door.next() {
            Ok(Some(line)) => line,
            Ok(None) => return DoorEnd::Ended,
            Err(_) => return DoorEnd::DoorFault,
        };
        let before = count(&log.notes);
        let end = serve_connection(
            &service.edge,
            &mut line,
            nonces,
            clock,
            objects,
            &mut log.notes,
        );
        door.give_back(line);
        let notes = count(&log.notes) - before;
        push_visit(&mut log.visits, Visit { notes, end });
        served += 1;
    }
}
