//! One round: its asks, served by one to sixteen workers at once over the one table of each edge.
ghost use Rattle.std.specs.Prelude.{◌≡◌, ◌≤◌, ◌+◌, ℕ, List, Option, All, IfOk, OnOk, length, map};
ghost use Rattle.usp_lab.specs.Gains.{ServesRound};
ghost use Rattle.usp_lab.specs.Asked.{AreHeads};
ghost use Rattle.usp_script.specs.Script.{IsAsk};
ghost use Rattle.usp_lab.specs.Tables.{HasRoom, IsWhole, seat_of, shared_of};
ghost use Rattle.usp_lab.specs.declared.limits.TheConstants.{MAX_WORKERS};

mod dealing;
mod duty;
mod gathering;
mod share;
mod sharing;
mod workers;

use crate::table::EdgeTable;
use crate::{Bench, NoMemory};
use dealing::{deal, make_shares};
use gathering::{are_whole, gather, join_shares};
use std::alloc::Global;
use std::sync::Wait;
use std::thread::Threads;
use usp_edge::{MAX_HEADS, Note};
use usp_ext::Kit;
use usp_script::{LabAsk, Script};
use workers::serve_shares;

/// Who serves the rounds of a script.
#[derive(Drop)]
pub(crate) struct LabCrew<'a, R> {
    pub rt: &'a R,
    pub alloc: Global,
    /// The tests of claims that configurations may name.
    pub kit: &'a Kit,
    pub script: &'a Script,
    /// At most so many threads serve at once.
    pub workers: usize,
}

/// Serves the asks of a round, whose heads these are, each worker its part in a thread of its own. The workers of an
/// edge share its one table. Behind that all lines are given back, in the order of the asks. Where there is no memory,
/// the tables are those of their edges still, and no more is said of them.
pub(crate) fn serve_round<R: Threads + Wait + Sync, B: Bench>(
    crew: &LabCrew<'_, R>,
    asks: &[LabAsk],
    heads: Vec<Vec<u8>>,
    tables: &mut [EdgeTable],
    bench: &mut B,
) -> Result<Vec<Note>, NoMemory>
    requires workers { (1 ≤ crew.now.workers) × (crew.now.workers ≤ MAX_WORKERS) }
    requires edges { length tables.old ≡ length crew.now.script.now.edges }
    requires room { All (HasRoom (length asks.now)) tables.old }
    requires asks { All (IsAsk crew.now.script.now.edges) asks.now }
    requires heads { (issued : List (Option (List ℕ)))
        × AreHeads crew.now.script.now issued asks.now (map (λ head. head.items) heads.items) }
    // Whatever was issued and known, where these are the heads of the asks then.
    ensures served { IfOk result (λ notes. (issued : List (Option (List ℕ))) (known : ℕ)
        → AreHeads crew.now.script.now issued asks.now (map (λ head. head.items) heads.items)
        → ServesRound crew.now.script.now issued known crew.now.workers asks.now (record {
          notes = notes.items;
          seats = map seat_of tables.old;
          seats_after = map seat_of tables.new;
          lines = B.given_back bench.old;
          lines_after = B.given_back bench.new;
        })) }
    ensures shared { map shared_of tables.new ≡ map shared_of tables.old }
    ensures room { OnOk result ((more : ℕ) → All (HasRoom (length asks.now + more)) tables.old
        → All (HasRoom more) tables.new) }
    ensures whole { OnOk result (All IsWhole tables.old → All IsWhole tables.new) }
    ensures out { OnOk result (B.lines_out bench.new ≡ B.lines_out bench.old) }
{
    let count = crew.workers.min(asks.len()).max(1);
    let part = MAX_HEADS * asks.len() as u64;
    let mut made = make_shares(crew.alloc, tables, count, part)?;
    let shares = made.as_mut_slice();
    deal(crew.alloc, heads, shares, bench)?;
    serve_shares(crew, asks, tables, shares)?;
    join_shares(tables, shares);
    if !are_whole(shares) {
        return Err(NoMemory);
    }
    gather(crew.alloc, asks.len(), shares, bench)
}
