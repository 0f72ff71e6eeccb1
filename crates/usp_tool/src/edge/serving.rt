//! All doors of an edge, served at once over one table of nonces.
ghost use Rattle.std.specs.Prelude.{◌≡◌, ◌≤◌, ◌<◌, ◌*◌, [], All, IfOk, OnErr, length, map};
ghost use Rattle.usp_nonce.specs.Stands.{StandsFor};
ghost use Rattle.usp_nonce.specs.declared.limits.TheConstants.{MAX_CALLS};
ghost use Rattle.usp_edge.specs.declared.limits.TheConstants.{MAX_HEADS};
ghost use Rattle.usp_tool.specs.Edge.Desks.{IsEmpty, desk_by};
ghost use Rattle.usp_tool.specs.Edge.Workers.{OneHistory};
ghost use Rattle.usp_tool.specs.declared.limits.TheConstants.{MAX_CONNECTIONS, MAX_WORKERS};

use super::seats::{close_edge, give_seats};
use super::worker::serve_workers;
use super::{Service, Worker};
use std::sync::Wait;
use std::thread::Threads;
use usp_base::{Clock, Door, Objects};
use usp_edge::MAX_HEADS;
use usp_nonce::NonceTable;
use usp_shared::{NoMemory, Seat, SharedNonces};

// Serves at all doors over a table that has met no call, whose one seat has as many calls as the workers may make.
fn serve_over<R: Threads + Wait + Sync, D: Door + Send, C: Clock + Send, O: Objects + Send>(
    rt: &R,
    service: &Service<'_>,
    table: SharedNonces,
    seat: Seat,
    workers: &mut [Worker<D, C, O>],
) -> NonceTable
where
    D::Line: Send,
    requires most { (1 ≤ service.now.most) × (service.now.most ≤ MAX_CONNECTIONS) }
    requires room { table.room ≡ service.now.edge.conf.now.room }
    requires share { table.share ≡ length workers.old * (MAX_HEADS * service.now.most) }
    requires seat { seat ≡ record { table = table.table; seen = []; places = []; left = table.share } }
    ensures served { OneHistory service.now.edge.conf.now service.now.most result.calls
        (map (desk_by D.coming D.given_back D.lines_out D.door_count C.given O.objects O.object_count) workers.old)
        (map (desk_by D.coming D.given_back D.lines_out D.door_count C.given O.objects O.object_count) workers.new) }
    ensures few { result.calls ≤ table.share }
{
    let mut seat = seat;
    give_seats(&table, &mut seat, MAX_HEADS * service.most, workers);
    serve_workers(rt, service, &table, workers);
    close_edge(table, seat, workers)
}

/// Serves at the doors of all workers, each in a thread of its own, over one table of nonces that has met no call.
/// Answers how many nonce calls they made. All of them are one legal history, and each note is decided over it. Where
/// there is no memory to share the table, no door was asked.
pub fn serve_edge<R: Threads + Wait + Sync, D: Door + Send, C: Clock + Send, O: Objects + Send>(
    rt: &R,
    service: &Service<'_>,
    table: NonceTable,
    workers: &mut [Worker<D, C, O>],
) -> Result<u64, NoMemory>
where
    D::Line: Send,
    requires most { (1 ≤ service.now.most) × (service.now.most ≤ MAX_CONNECTIONS) }
    requires workers { (1 ≤ length workers.old) × (length workers.old ≤ MAX_WORKERS) }
    requires empty { All (λ w. IsEmpty w.shift) workers.old }
    requires fresh { StandsFor table [] }
    requires room { table.room ≡ service.now.edge.conf.now.room }
    ensures served { IfOk result (λ n. OneHistory service.now.edge.conf.now service.now.most n
        (map (desk_by D.coming D.given_back D.lines_out D.door_count C.given O.objects O.object_count) workers.old)
        (map (desk_by D.coming D.given_back D.lines_out D.door_count C.given O.objects O.object_count) workers.new)) }
    ensures few { IfOk result (λ n. n < MAX_CALLS) }
    ensures kept { OnErr result (workers.new ≡ workers.old) }
{
    let share = workers.len() as u64 * (MAX_HEADS * service.most);
    match SharedNonces::new(service.edge.alloc, table, share) {
        Ok((table, seat)) => Ok(serve_over(rt, service, table, seat, workers).calls()),
        Err((_, want)) => Err(want),
    }
}
