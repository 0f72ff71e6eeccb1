//! The workers of an edge, each in a thread of its own.
ghost use Rattle.std.specs.Prelude.{◌≡◌, ◌≤◌, ◌<◌, ◌*◌, ℕ, [], None, Option, All, length, map, slice_index_or};
ghost use Rattle.atomic_table.specs.Seated.{TableId};
ghost use Rattle.usp_conf.specs.Values.{ConfValue};
ghost use Rattle.usp_tool.specs.Edge.Desks.{IsEmpty, cleared, desk_by, outside_of};
ghost use Rattle.usp_tool.specs.Edge.Workers.{HasWorked, IsReady};
ghost use Rattle.usp_tool.specs.declared.limits.TheConstants.{MAX_CONNECTIONS};

use super::sharing::share_conf;
use super::{DoorEnd, Log, Service, serve_door};
use std::alloc::Global;
use std::sync::Wait;
use std::thread;
use std::thread::Threads;
use usp_base::{Clock, Door, Objects};
use usp_conf::Conf;
use usp_edge::{Edge, Seated};
use usp_ext::Kit;
use usp_shared::{Seat, SharedNonces};

/// What a worker keeps while it serves: its seat at the table of nonces, what it notes, and how its work ended.
#[derive(Drop)]
pub struct Shift {
    pub(crate) seat: Option<Seat>,
    pub(crate) log: Log,
    pub(crate) end: Option<DoorEnd>,
}

impl Shift {
    /// Nothing was done yet. It takes no memory.
    pub fn empty(alloc: Global) -> Shift
        ensures { IsEmpty result }
    {
        Shift {
            seat: None,
            log: Log {
                notes: Vec::new(alloc),
                visits: Vec::new(alloc),
            },
            end: None,
        }
    }
}

/// A worker of an edge.
#[derive(Drop)]
pub struct Worker<D, C, O> {
    /// Where its connections come from.
    pub door: D,
    pub clock: C,
    pub objects: O,
    /// Empty before an edge serves, and again behind that.
    pub shift: Shift,
}

// Something that holds a configuration. The closure that goes to the threads has no other name for it.
trait Holds {
    ghost held: { Self → ConfValue };

    fn conf(&self) -> &Conf
        ensures { result.now ≡ held self.now };
}

impl Holds for Conf {
    ghost held = { λ conf. conf };

    fn conf(&self) -> &Conf {
        self
    }
}

// What each worker does, in whatever thread.
trait Duty {
    // The table of all seats.
    ghost table: { Self → TableId };

    // How many connections each worker serves at most.
    ghost most: { Self → ℕ };

    // Serves at the worker's door, with its seat.
    fn serve<K: Holds, D: Door, C: Clock, O: Objects>(&self, held: &K, worker: &mut Worker<D, C, O>)
        requires { IsReady (table self.now) (most self.now) worker.old.shift.seat }
        ensures { HasWorked
            (desk_by D.coming D.given_back D.lines_out D.door_count C.given O.objects O.object_count)
            (K.held held.now) (most self.now) worker.old worker.new };
}

// What the workers of one edge do: each serves its door over the edge's one table of nonces.
#[derive(Drop)]
struct EdgeDuty<'a, R: Wait> {
    rt: &'a R,
    alloc: Global,
    kit: &'a Kit,
    table: &'a SharedNonces,
    most: u64,
    ghost most_is: { (1 ≤ most) × (most ≤ MAX_CONNECTIONS) },
}

impl<'a, R: Wait> Duty for EdgeDuty<'a, R> {
    ghost table = { λ duty. duty.table.now.table };

    ghost most = { λ duty. duty.most };

    fn serve<K: Holds, D: Door, C: Clock, O: Objects>(
        &self,
        held: &K,
        worker: &mut Worker<D, C, O>,
    ) {
        let Some(seat) = worker.shift.seat.take() else {
            unreachable!()
        };
        let service = Service {
            edge: Edge {
                alloc: self.alloc,
                kit: self.kit,
                conf: held.conf(),
            },
            most: self.most,
        };
        let mut nonces = Seated::new(self.table, seat, self.rt);
        let end = serve_door(
            &service,
            &mut worker.door,
            &mut nonces,
            &mut worker.clock,
            &mut worker.objects,
            &mut worker.shift.log,
        );
        worker.shift.end = Some(end);
        worker.shift.seat = Some(nonces.into_seat());
    }
}

// Lets each worker do its duty, in a thread of its own.
fn serve_each<
    R: Threads + Sync,
    J: Duty + Sync,
    K: Holds + Sync,
    D: Door + Send,
    C: Clock + Send,
    O: Objects + Send,
>(rt: &R, duty: &J, held: &K, workers: &mut [Worker<D, C, O>])
where
    D::Line: Send,
    requires { All (λ w. IsReady (J.table duty.now) (J.most duty.now) w.shift.seat) workers.old }
    ensures { (i : ℕ) (d : _) → i < length workers.old → HasWorked
        (desk_by D.coming D.given_back D.lines_out D.door_count C.given O.objects O.object_count)
        (K.held held.now) (J.most duty.now) (slice_index_or workers.old i d) (slice_index_or workers.new i d) }
{
    let threads = workers.len();
    if threads > 0 {
        thread::for_each_mut(
            rt,
            workers,
            threads,
            &|_, worker: &mut Worker<D, C, O>|
                requires { IsReady (J.table duty.now) (J.most duty.now) worker.now.shift.seat }
                ensures { HasWorked
                    (desk_by D.coming D.given_back D.lines_out D.door_count C.given O.objects O.object_count)
                    (K.held held.entry.now) (J.most duty.entry.now) worker.entry.now worker.exit.now }
            { duty.serve(held, worker) },
        );
    }
}

/// Lets each worker serve at its door, in a thread of its own. Each has a seat of the table.
pub(crate) fn serve_workers<
    R: Threads + Wait + Sync,
    D: Door + Send,
    C: Clock + Send,
    O: Objects + Send,
>(rt: &R, service: &Service<'_>, table: &SharedNonces, workers: &mut [Worker<D, C, O>])
where
    D::Line: Send,
    requires most { (1 ≤ service.now.most) × (service.now.most ≤ MAX_CONNECTIONS) }
    requires ready { All (λ w. IsReady table.now.table service.now.most w.shift.seat) workers.old }
    ensures { (i : ℕ) (d : _) → i < length workers.old → HasWorked
        (desk_by D.coming D.given_back D.lines_out D.door_count C.given O.objects O.object_count)
        service.now.edge.conf.now service.now.most (slice_index_or workers.old i d) (slice_index_or workers.new i d) }
{
    share_conf();
    let duty = EdgeDuty {
        rt,
        alloc: service.edge.alloc,
        kit: service.edge.kit,
        table,
        most: service.most,
    };
    serve_each(rt, &duty, service.edge.conf, workers);
}

// Clears a shift: nothing was done in it.
fn clear(shift: &mut Shift)
    ensures { IsEmpty shift.new }
{
    shift.seat = None;
    shift.log.notes.clear();
    shift.log.visits.clear();
    shift.end = None;
}

/// Clears the shifts of all workers. All else of them is as it was. It takes no memory.
pub fn clear_shifts<D: Door, C: Clock, O: Objects>(workers: &mut [Worker<D, C, O>])
    ensures empty { All (λ w. IsEmpty w.shift) workers.new }
    ensures kept { map outside_of workers.new ≡ map outside_of workers.old }
    ensures told { let desk = desk_by D.coming D.given_back D.lines_out D.door_count C.given O.objects O.object_count in
        map desk workers.new ≡ map cleared (map desk workers.old) }
{
    'workers: for worker in workers.iter_mut() {
        clear(&mut worker.shift);
    }
}
