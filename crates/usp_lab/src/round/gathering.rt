//! What comes of a round when its workers are done.
ghost use Rattle.std.specs.Prelude.{◌≡◌, ◌≤◌, ◌<◌, ◌+◌, ℕ, List, All, IfOk, OnOk, length, map, true, slice_index_or};
ghost use Rattle.usp_lab.specs.Benches.{IsTold, append_used};
ghost use Rattle.usp_lab.specs.Jobs.{Deed, note_of, used_of};
ghost use Rattle.usp_lab.specs.Shares.{TakenIn, part_by, seat_in, share_of, table_of};
ghost use Rattle.usp_lab.specs.Tables.{Gets, shared_of, tables_of};

use super::share::Share;
use crate::table::EdgeTable;
use crate::{Bench, Calm, NoMemory};
use std::alloc::Global;
use usp_edge::Note;
use usp_shared::Seat;

// Takes seats back into their tables.
fn take_seats(tables: &mut [EdgeTable], seats: &mut Vec<Seat>)
    requires { map table_of seats.old.items ≡ tables_of tables.old }
    ensures shared { map shared_of tables.new ≡ map shared_of tables.old }
    ensures taken { (edge : ℕ) (d : _) (e : _) → edge < length tables.old → Gets
        (slice_index_or tables.old edge d).seat (slice_index_or seats.old.items edge e)
        (slice_index_or tables.new edge d).seat }
{
    while let Some(seat) = seats.pop() {
        let edge = seats.len();
        tables[edge].take_back(seat);
    }
}

/// Takes the seats of all shares back.
pub(super) fn join_shares<L: Calm + Drop>(tables: &mut [EdgeTable], shares: &mut [Share<L>])
    requires { All (λ share. map table_of share.seats.items ≡ tables_of tables.old) shares.old }
    ensures shared { map shared_of tables.new ≡ map shared_of tables.old }
    ensures taken { (edge : ℕ) (d : _) (e : _) → edge < length tables.old → TakenIn
        (slice_index_or tables.old edge d).seat (map (seat_in edge e) shares.old)
        (slice_index_or tables.new edge d).seat }
    ensures done { map (λ share. share.done) shares.new ≡ map (λ share. share.done) shares.old }
    ensures whole { map (λ share. share.whole) shares.new ≡ map (λ share. share.whole) shares.old }
{
    'shares: for share in shares.iter_mut() {
        take_seats(tables, &mut share.seats);
    }
}

/// Whether each share was served whole.
pub(super) fn are_whole<L: Calm + Drop>(shares: &[Share<L>]) -> bool
    ensures { result ≡ true → All (λ share. share.whole ≡ true) shares.now }
{
    shares.iter().all(|share| share.whole)
}

// What a line tells.
fn tell<L: Calm>(line: &L)
    ensures { IsTold (L.left line.now) × IsTold (L.told line.now) }
{}

/// Gives the lines of so many asks back in their order, and gathers what is noted of them.
pub(super) fn gather<B: Bench>(
    alloc: Global,
    count: usize,
    shares: &mut [Share<B::Line>],
    bench: &mut B,
) -> Result<Vec<Note>, NoMemory>
    requires some { 0 < length shares.old }
    requires out { count ≤ B.lines_out bench.old }
    ensures gathered { IfOk result (λ notes. (deeds : List Deed) → length deeds ≡ count
        → ((w : ℕ) (d : _) → w < length shares.old
        → (part_by B.Line.left B.Line.told (slice_index_or shares.old w d)).deeds
        ≡ share_of (length shares.old) 0 w deeds)
        → (notes.items ≡ map note_of deeds)
        × (B.given_back bench.new ≡ append_used (B.given_back bench.old) (map used_of deeds))) }
    ensures out { OnOk result (B.lines_out bench.new + count ≡ B.lines_out bench.old) }
{
    let mut notes = Vec::with_capacity(alloc, count)?;
    for place in 0..count {
        let turn = place % shares.len();
        let Some(done) = shares[turn].done.pop_front() else {
            return Err(NoMemory);
        };
        notes.push(done.note)?;
        tell(&done.line);
        bench.back(done.line);
    }
    Ok(notes)
}
