//! The run of a script.
ghost use Rattle.std.specs.Prelude.{◌≡◌, ◌+◌, ◌≤◌, ℕ, All, IfOk, OnOk, length, map};
ghost use Rattle.usp_script.specs.Script.{IsRound, grants_in};
ghost use Rattle.usp_script.specs.declared.limits.TheConstants.{MAX_ASKS};
ghost use Rattle.usp_lab.specs.Entries.{Run, served_in};
ghost use Rattle.usp_lab.specs.Named.{HasNamedKeys};
ghost use Rattle.usp_lab.specs.Reports.{HasRun};
ghost use Rattle.usp_lab.specs.Tables.{HasRoom};
ghost use Rattle.usp_lab.specs.UnderWay.{AreFresh, AreRun, HasGoneOn, IsEmpty, IsUnderWay};
ghost use Rattle.usp_lab.specs.declared.limits.TheConstants.{MAX_WORKERS};

mod books;
mod entry_list;
mod heads;
mod issuing;
mod tables;
#[cfg(test)]
mod tests;
mod tokens;

use crate::named::has_named_keys;
use crate::round::{LabCrew, serve_round};
use crate::table::EdgeTable;
use crate::{Bench, NoMemory, Report};
use books::Books;
use heads::heads_of;
use std::alloc::Global;
use std::sync::Wait;
use std::thread::Threads;
use tables::{close_tables, open_tables};
use tokens::{Named, grants_in};
use usp_conf::Conf;
use usp_ext::Kit;
use usp_jws::Token;
use usp_script::{Round, Script};

/// What a script is run with.
#[derive(Drop)]
pub struct Lab<'a, R> {
    /// Starts the threads of the workers, and waits for turns at the nonce tables.
    pub rt: &'a R,
    pub alloc: Global,
    /// The tests of claims that configurations may name.
    pub kit: &'a Kit,
    /// How many workers share the asks of a round.
    pub workers: usize,
}

// What each round is run with.
#[derive(Drop)]
struct Course<'a, R> {
    crew: LabCrew<'a, R>,
    // The tokens that are granted in all rounds.
    grants: &'a [&'a Token],
}

// Runs one more round: its grants enter the ledger, its asks are served, and then what they issued enters.
fn run_round<R: Threads + Wait + Sync, B: Bench>(
    course: &Course<'_, R>,
    round: &Round,
    books: &mut Books,
    tables: &mut [EdgeTable],
    bench: &mut B,
) -> Result<(), NoMemory>
    requires workers { (1 ≤ course.now.crew.workers) × (course.now.crew.workers ≤ MAX_WORKERS) }
    requires grants { map (λ token. token.now) course.now.grants.now ≡ grants_in course.now.crew.script.now.rounds }
    requires named { All HasNamedKeys course.now.crew.script.now.edges }
    requires round { IsRound course.now.crew.script.now.edges round.now }
    requires room { All (HasRoom (length round.now.asks)) tables.old }
    requires way { (run : Run)
        × IsUnderWay course.now.crew.script.now.edges course.now.crew.workers run books.old tables.old
        × (length (served_in run) + length round.now.asks ≤ MAX_ASKS) }
    ensures goes_on { OnOk result ((run : Run)
        → IsUnderWay course.now.crew.script.now.edges course.now.crew.workers run books.old tables.old
        → HasGoneOn course.now.crew.script.now course.now.crew.workers run round.now
        books.new tables.new (B.given_back bench.old) (B.given_back bench.new)) }
    ensures room { OnOk result ((more : ℕ)
        → All (HasRoom (length round.now.asks + more)) tables.old → All (HasRoom more) tables.new) }
    ensures out { OnOk result (B.lines_out bench.new ≡ B.lines_out bench.old) }
{
    let alloc = course.crew.alloc;
    let script = course.crew.script;
    let asks = round.asks.rows();
    books.grant(alloc, round.grants.rows())?;
    let named = Named {
        script,
        grants: course.grants,
        issued: &books.issued,
    };
    let heads = heads_of(alloc, &named, asks)?;
    let notes = serve_round(&course.crew, asks, heads, tables, bench)?;
    books.note(alloc, script.edges(), asks, &notes)?;
    Ok(())
}

// Says that the names of the keys of the edges are within their limit, on which the length of what is issued rests.
fn are_named(edges: &[Conf])
    ensures { All HasNamedKeys edges.now }
{
    'edges: for edge in edges {
        has_named_keys(edge);
    }
}

// Runs all rounds, one after the other.
fn run_rounds<R: Threads + Wait + Sync, B: Bench>(
    course: &Course<'_, R>,
    books: &mut Books,
    tables: &mut [EdgeTable],
    bench: &mut B,
) -> Result<(), NoMemory>
    requires workers { (1 ≤ course.now.crew.workers) × (course.now.crew.workers ≤ MAX_WORKERS) }
    requires grants { map (λ token. token.now) course.now.grants.now ≡ grants_in course.now.crew.script.now.rounds }
    requires books { IsEmpty books.old }
    requires tables { AreFresh course.now.crew.script.now.edges tables.old }
    ensures run { OnOk result (AreRun course.now.crew.script.now course.now.crew.workers
        books.new tables.new (B.given_back bench.old) (B.given_back bench.new)) }
    ensures out { OnOk result (B.lines_out bench.new ≡ B.lines_out bench.old) }
{
    let edges = course.crew.script.edges();
    are_named(edges);
    let rounds = course.crew.script.rounds();
    'rounds: for round in rounds {
        run_round(course, round, books, tables, bench)?;
    }
    Ok(())
}

/// Runs a script: its rounds in order, the asks of each by so many workers, each ask over a connection of the bench.
/// What each round grants enters the ledger as it begins, and what its asks issued when they are all served. The
/// report tells the asks, the ledger and the nonce calls of the edges, and the connections were given back in the
/// order of the asks.
pub fn run_script<R: Threads + Wait + Sync, B: Bench>(
    lab: &Lab<'_, R>,
    script: &Script,
    bench: &mut B,
) -> Result<Report, NoMemory>
    requires { (1 ≤ lab.now.workers) × (lab.now.workers ≤ MAX_WORKERS) }
    ensures run { IfOk result (λ report. HasRun script.now lab.now.workers
        (B.given_back bench.old) (B.given_back bench.new) report) }
    ensures out { OnOk result (B.lines_out bench.new ≡ B.lines_out bench.old) }
{
    let grants = grants_in(lab.alloc, script.rounds())?;
    let course = Course {
        crew: LabCrew {
            rt: lab.rt,
            alloc: lab.alloc,
            kit: lab.kit,
            script,
            workers: lab.workers,
        },
        grants: &grants,
    };
    let mut books = Books::new(lab.alloc);
    let mut tables = open_tables(lab.alloc, script.edges())?;
    run_rounds(&course, &mut books, &mut tables, bench)?;
    let calls = close_tables(lab.alloc, tables)?;
    Ok(books.into_report(calls))
}
