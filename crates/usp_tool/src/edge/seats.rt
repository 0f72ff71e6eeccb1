//! The seats of the workers at the one table of an edge.
ghost use Rattle.std.specs.Prelude.{◌≡◌, ◌+◌, ◌-◌, ◌*◌, ◌≤◌, [], Some, None, All, IfSome, length, map};
ghost use Rattle.usp_nonce.specs.History.{IsLegal};
ghost use Rattle.usp_nonce.specs.Stands.{StandsFor};
ghost use Rattle.usp_shared.specs.Places.{AreAllBelow};
ghost use Rattle.usp_shared.specs.Seats.{Seated};
ghost use Rattle.usp_tool.specs.Edge.Joins.{TakenIn, Took};
ghost use Rattle.usp_tool.specs.Edge.Desks.{seat_at, with_seat};

use super::Worker;
use usp_nonce::NonceTable;
use usp_shared::{Seat, SharedNonces};

// Gives a seat with so many of the calls that are left.
fn give_seat(table: &SharedNonces, seat: &mut Seat, part: u64, to: &mut Option<Seat>)
    requires table { seat.old.table ≡ table.now.table }
    requires share { part ≤ seat.old.left }
    ensures given { to.new ≡ Some (record seat.old { places = []; left = part }) }
    ensures kept { seat.new ≡ record seat.old { left = seat.old.left - part } }
{
    match table.split(seat, part) {
        Ok(given) => *to = Some(given),
        Err(_) => unreachable!(),
    }
}

/// Gives each worker a seat with so many calls.
pub(crate) fn give_seats<D, C, O>(
    table: &SharedNonces,
    seat: &mut Seat,
    part: u64,
    workers: &mut [Worker<D, C, O>],
)
    requires table { seat.old.table ≡ table.now.table }
    requires share { length workers.old * part ≤ seat.old.left }
    ensures given { workers.new ≡ map (with_seat (Some (record seat.old { places = []; left = part }))) workers.old }
    ensures kept { seat.new ≡ record seat.old { left = seat.old.left - length workers.old * part } }
{
    'workers: for worker in workers.iter_mut() {
        give_seat(table, seat, part, &mut worker.shift.seat);
    }
}

// Takes a seat back, if there is one.
fn take_seat(table: &SharedNonces, seat: &mut Seat, from: &mut Option<Seat>)
    requires table { seat.old.table ≡ table.now.table }
    requires other { IfSome from.old (λ s. s.table ≡ table.now.table) }
    ensures took { Took seat.old from.old seat.new }
    ensures table { seat.new.table ≡ table.now.table }
    ensures none { from.new ≡ None }
{
    match from.take() {
        Some(other) => table.join(seat, other),
        None => {}
    }
}

// Takes the seats of the workers back.
fn take_seats<D, C, O>(table: &SharedNonces, seat: &mut Seat, workers: &mut [Worker<D, C, O>])
    requires table { seat.old.table ≡ table.now.table }
    requires seats { All (λ w. IfSome w.shift.seat (λ s. s.table ≡ table.now.table)) workers.old }
    ensures taken { TakenIn seat.old (map seat_at workers.old) seat.new }
    ensures table { seat.new.table ≡ table.now.table }
    ensures rest { workers.new ≡ map (with_seat None) workers.old }
{
    'workers: for worker in workers.iter_mut() {
        take_seat(table, seat, &mut worker.shift.seat);
    }
}

/// Takes all seats back, and closes the table. All else of each worker is as it was.
pub(crate) fn close_edge<D, C, O>(
    table: SharedNonces,
    seat: Seat,
    workers: &mut [Worker<D, C, O>],
) -> NonceTable
    requires table { seat.table ≡ table.table }
    requires seats { All (λ w. IfSome w.shift.seat (λ s. s.table ≡ table.table)) workers.old }
    requires whole { (final : Seated) → TakenIn seat (map seat_at workers.old) final
        → final.left + length final.places ≡ table.share }
    ensures closed { (final : Seated) × TakenIn seat (map seat_at workers.old) final × StandsFor result final.seen
        × IsLegal table.room final.seen × AreAllBelow (length final.seen) final.places
        × (length final.places ≡ length final.seen) }
    ensures rest { workers.new ≡ map (with_seat None) workers.old }
{
    let mut seat = seat;
    take_seats(&table, &mut seat, workers);
    table.close(seat)
}
