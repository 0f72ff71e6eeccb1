//! The workers of a round, each in a thread of its own.
ghost use Rattle.std.specs.Prelude.{◌≡◌, ◌<◌, ℕ, List, All, IfOk, OnOk, length, map, slice_index_or};
ghost use Rattle.atomic_table.specs.Seated.{TableId};
ghost use Rattle.usp_script.specs.Script.{ScriptValue};
ghost use Rattle.usp_script.specs.declared.ask.LabAsk.{LabAsk};
ghost use Rattle.usp_lab.specs.Shares.{HasWorked, IsReadyPart, part_by};
ghost use Rattle.usp_lab.specs.Tables.{tables_of};

use super::LabCrew;
use super::duty::RoundDuty;
use super::share::Share;
use super::sharing::share_all;
use crate::table::EdgeTable;
use crate::{Calm, NoMemory};
use std::alloc::Global;
use std::sync::Wait;
use std::thread;
use std::thread::Threads;
use usp_ext::Kit;
use usp_script::{LabAsk, Script};
use usp_shared::SharedNonces;

// Something that holds a script. The closure that goes to the threads has no other name for it.
trait HasScript {
    ghost held: { Self → ScriptValue };

    fn script(&self) -> &Script
        ensures { result.now ≡ held self.now };
}

impl HasScript for Script {
    ghost held = { λ script. script };

    fn script(&self) -> &Script {
        self
    }
}

// Something that holds the asks of a round, for the closure likewise.
trait HasAsks {
    ghost held: { Self → List LabAsk };

    fn asks(&self) -> &[LabAsk]
        ensures { result.now ≡ held self.now };
}

// The asks of a round.
#[derive(Clone, Copy)]
struct Asks<'a> {
    asks: &'a [LabAsk],
}

impl<'a> HasAsks for Asks<'a> {
    ghost held = { λ all. all.asks.now };

    fn asks(&self) -> &[LabAsk] {
        self.asks
    }
}

// What each worker does, in whatever thread.
trait Duty {
    // The tables of the edges.
    ghost tables: { Self → List TableId };

    // Serves the asks of a share in order, each over its line and with the seat at its edge.
    fn serve<K: HasScript, Q: HasAsks, L: Calm + Drop>(
        &self,
        script: &K,
        asks: &Q,
        share: &mut Share<L>,
    )
        requires edges { length (tables self.now) ≡ length (K.held script.now).edges }
        requires ready { IsReadyPart (K.held script.now) (Q.held asks.now) (tables self.now)
            (part_by L.left L.told share.old) }
        ensures { HasWorked (K.held script.now) (Q.held asks.now)
            (part_by L.left L.told share.old) (part_by L.left L.told share.new) };
}

// What the workers of a round serve by, beside its script and its asks: the one table of each edge.
#[derive(Drop)]
struct CrewDuty<'a, R: Wait> {
    rt: &'a R,
    alloc: Global,
    kit: &'a Kit,
    tables: &'a [&'a SharedNonces],
}

impl<'a, R: Wait> Duty for CrewDuty<'a, R> {
    ghost use Rattle.std.specs.Prelude.{map};

    ghost tables = { λ duty. map (λ nonces. nonces.now.table) duty.tables.now };

    fn serve<K: HasScript, Q: HasAsks, L: Calm + Drop>(
        &self,
        script: &K,
        asks: &Q,
        share: &mut Share<L>,
    ) {
        let duty = RoundDuty {
            rt: self.rt,
            alloc: self.alloc,
            kit: self.kit,
            script: script.script(),
            asks: asks.asks(),
            tables: self.tables,
        };
        duty.serve(share);
    }
}

// Lets each worker serve its share, in a thread of its own. One share alone is served in the calling thread.
fn serve_each<
    R: Threads + Sync,
    J: Duty + Sync,
    K: HasScript + Sync,
    Q: HasAsks + Sync,
    L: Calm + Send + Drop,
>(rt: &R, duty: &J, script: &K, asks: &Q, shares: &mut [Share<L>])
    requires edges { length (J.tables duty.now) ≡ length (K.held script.now).edges }
    requires ready { All (λ share. IsReadyPart (K.held script.now) (Q.held asks.now) (J.tables duty.now)
        (part_by L.left L.told share)) shares.old }
    ensures { (w : ℕ) (d : _) → w < length shares.old → HasWorked (K.held script.now) (Q.held asks.now)
        (part_by L.left L.told (slice_index_or shares.old w d))
        (part_by L.left L.told (slice_index_or shares.new w d)) }
{
    let threads = shares.len();
    if threads > 0 {
        thread::for_each_mut(
            rt,
            shares,
            threads,
            &|_, share: &mut Share<L>|
                requires { (length (J.tables duty.now) ≡ length (K.held script.now).edges)
                    × IsReadyPart (K.held script.now) (Q.held asks.now) (J.tables duty.now)
                    (part_by L.left L.told share.now) }
                ensures { HasWorked (K.held script.entry.now) (Q.held asks.entry.now)
                    (part_by L.left L.told share.entry.now) (part_by L.left L.told share.exit.now) }
            { duty.serve(script, asks, share) },
        );
    }
}

// The nonces of each table, in order.
fn nonces_of(alloc: Global, tables: &[EdgeTable]) -> Result<Vec<&SharedNonces>, NoMemory>
    ensures { IfOk result (λ all. map (λ nonces. nonces.now.table) all.items ≡ tables_of tables.now) }
{
    let mut all = Vec::with_capacity(alloc, tables.len())?;
    'tables: for table in tables.iter() {
        all.push(table.nonces())?;
    }
    Ok(all)
}

// Lets each worker serve its share of these asks over these nonces, in a thread of its own.
fn serve_over<R: Threads + Wait + Sync, L: Calm + Send + Drop>(
    crew: &LabCrew<'_, R>,
    asks: &[LabAsk],
    tables: &[&SharedNonces],
    shares: &mut [Share<L>],
)
    requires edges { length tables.now ≡ length crew.now.script.now.edges }
    requires ready { All (λ share. IsReadyPart crew.now.script.now asks.now
        (map (λ nonces. nonces.now.table) tables.now) (part_by L.left L.told share)) shares.old }
    ensures { (w : ℕ) (d : _) → w < length shares.old → HasWorked crew.now.script.now asks.now
        (part_by L.left L.told (slice_index_or shares.old w d))
        (part_by L.left L.told (slice_index_or shares.new w d)) }
{
    share_all();
    let duty = CrewDuty {
        rt: crew.rt,
        alloc: crew.alloc,
        kit: crew.kit,
        tables,
    };
    serve_each(crew.rt, &duty, crew.script, &Asks { asks }, shares);
}

/// Lets each worker serve its share of these asks, in a thread of its own. One share alone is served in the calling
/// thread. Where there is no memory to gather the tables, nothing was served.
pub(super) fn serve_shares<R: Threads + Wait + Sync, L: Calm + Send + Drop>(
    crew: &LabCrew<'_, R>,
    asks: &[LabAsk],
    tables: &[EdgeTable],
    shares: &mut [Share<L>],
) -> Result<(), NoMemory>
    requires edges { length tables.now ≡ length crew.now.script.now.edges }
    requires ready { All (λ share. IsReadyPart crew.now.script.now asks.now (tables_of tables.now)
        (part_by L.left L.told share)) shares.old }
    ensures { OnOk result ((w : ℕ) (d : _) → w < length shares.old → HasWorked crew.now.script.now asks.now
        (part_by L.left L.told (slice_index_or shares.old w d))
        (part_by L.left L.told (slice_index_or shares.new w d))) }
{
    let nonces = nonces_of(crew.alloc, tables)?;
    serve_over(crew, asks, &nonces, shares);
    Ok(())
}
