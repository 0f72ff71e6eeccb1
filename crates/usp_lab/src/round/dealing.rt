//! How a round is dealt to its workers.
ghost use Rattle.std.specs.Prelude.{◌≡◌, ◌≤◌, ◌<◌, ◌+◌, ◌*◌, ℕ, [], ◌∷◌, All, IfOk, OnOk, OnErr, length, map, false, slice_index_or};
ghost use Rattle.usp_lab.specs.Jobs.{task_by, tasks_from};
ghost use Rattle.usp_lab.specs.Shares.{IsFreshPart, part_by, share_of, table_of};
ghost use Rattle.usp_lab.specs.Tables.{lent, part_at, shared_of, tables_of};

use super::share::{Job, Share};
use crate::table::EdgeTable;
use crate::{Bench, Calm, NoMemory};
use std::alloc::Global;
use std::collections::VecDeque;
use usp_shared::Seat;

// A seat of each table, with so many calls.
fn lend_seats(alloc: Global, tables: &mut [EdgeTable], part: u64) -> Result<Vec<Seat>, NoMemory>
    requires { All (λ table. part ≤ table.seat.left) tables.old }
    ensures seats { IfOk result (λ seats. seats.items ≡ map (part_at part) tables.old) }
    ensures kept { OnOk result (tables.new ≡ map (lent part) tables.old) }
    ensures shared { map shared_of tables.new ≡ map shared_of tables.old }
    ensures tables { IfOk result (λ seats. map table_of seats.items ≡ tables_of tables.old) }
{
    let mut seats = Vec::with_capacity(alloc, tables.len())?;
    'tables: for table in tables.iter_mut() {
        seats.push(table.lend(part))?;
    }
    Ok(seats)
}

/// So many shares, without jobs, each with a seat of each table that has so many calls.
pub(super) fn make_shares<L: Calm + Drop>(
    alloc: Global,
    tables: &mut [EdgeTable],
    count: usize,
    part: u64,
) -> Result<Vec<Share<L>>, NoMemory>
    requires { All (λ table. count * part ≤ table.seat.left) tables.old }
    ensures count { IfOk result (λ shares. length shares.items ≡ count) }
    ensures fresh { IfOk result (λ shares.
        All (λ share. IsFreshPart (map (part_at part) tables.old) (part_by L.left L.told share)) shares.items) }
    ensures tables { IfOk result (λ shares. All
        (λ share. map table_of share.seats.items ≡ tables_of tables.old) shares.items) }
    ensures kept { OnOk result (tables.new ≡ map (lent (count * part)) tables.old) }
    ensures shared { map shared_of tables.new ≡ map shared_of tables.old }
{
    let mut shares = Vec::with_capacity(alloc, count)?;
    'shares: for _ in 0..count {
        shares.push(Share {
            jobs: VecDeque::new(alloc),
            done: VecDeque::new(alloc),
            seats: lend_seats(alloc, tables, part)?,
            whole: false,
        })?;
    }
    Ok(shares)
}

// Puts a job in front of those of a share.
fn hand<L: Calm + Drop>(share: &mut Share<L>, job: Job<L>) -> Result<(), NoMemory>
    ensures handed { OnOk result (part_by L.left L.told share.new ≡ record (part_by L.left L.told share.old) {
      tasks = task_by L.left L.told job ∷ (part_by L.left L.told share.old).tasks;
    }) }
{
    share.jobs.push_front(job)?;
    Ok(())
}

/// Makes the lines of a round, whose heads these are, and deals its asks to the shares in turn.
pub(super) fn deal<B: Bench>(
    alloc: Global,
    mut heads: Vec<Vec<u8>>,
    shares: &mut [Share<B::Line>],
    bench: &mut B,
) -> Result<(), NoMemory>
    requires some { 0 < length shares.old }
    requires empty { All (λ share. (part_by B.Line.left B.Line.told share).tasks ≡ []) shares.old }
    ensures dealt { OnOk result ((w : ℕ) (d : _) → w < length shares.old
        → part_by B.Line.left B.Line.told (slice_index_or shares.new w d)
        ≡ record (part_by B.Line.left B.Line.told (slice_index_or shares.old w d)) {
          tasks = share_of (length shares.old) 0 w (tasks_from 0 (map (λ head. head.items) heads.items));
        }) }
    ensures out { OnOk result (B.lines_out bench.new ≡ B.lines_out bench.old + length heads.items) }
    ensures back { B.given_back bench.new ≡ B.given_back bench.old }
{
    while let Some(head) = heads.pop() {
        let place = heads.len();
        let line = bench.line(alloc, head)?;
        let turn = place % shares.len();
        hand(&mut shares[turn], Job { place, line })?;
    }
    Ok(())
}
