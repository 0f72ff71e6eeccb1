//! Calls of a nonce table, for `bench/nonce_rate.py`.
//!
//! `usp_bench_nonce WAY HELD CALLS THREADS` makes so many calls of a table with about HELD nonces held, and prints
//! the seconds and the nanoseconds that they took, and how many of them took their nonce. THREADS 0 stands for the
//! table of one thread, and else so many threads share a table. WAY is one of these:
//!
//! - `distinct`: each nonce is new, and is held ten seconds, in which HELD calls come;
//! - `staggered`: each nonce is new, and each call comes a second after the one before it;
//! - `repeated`: HELD nonces are asked for over and over;
//! - `equal`: so are they, and all have one hash.
#![tactic(auto)]

ghost use Rattle.std.specs.Prelude.{◌≡◌};

mod callers;
mod keys;
mod plan;

use crate::callers::{Caller, Calls, calls_of_one};
use crate::plan::{Plan, Way};
use std::alloc::Global;
use std::process::ExitCode;
use std::rt::Runtime;
use std::sync::Wait;
use std::thread::Threads;
use std::time::{Duration, Instant};
use std::{env, io, thread};
use usp_base::read_number;
use usp_nonce::{MAX_ROOM, NonceTable};
use usp_shared::SharedNonces;

/// The most of each number.
const MOST: u64 = 1_000_000_000;

/// What was asked for on the command line.
#[derive(Drop)]
struct Job {
    plan: Plan,
    calls: u64,
    threads: u64,
}

impl Job {
    /// The calls that fill the table.
    fn filling(&self) -> Calls {
        Calls {
            from: 0,
            step: 1,
            count: self.plan.held,
        }
    }

    /// The calls of one of its threads.
    fn share_of(&self, thread: u64) -> Calls {
        let threads = self.threads.max(1);
        Calls {
            from: self.plan.held.wrapping_add(thread),
            step: threads,
            count: self.calls / threads,
        }
    }
}

fn read_way(word: &str) -> Option<Way> {
    match word {
        "distinct" => Some(Way::Distinct),
        "staggered" => Some(Way::Staggered),
        "repeated" => Some(Way::Repeated),
        "equal" => Some(Way::Equal),
        _ => None,
    }
}

fn read_job<R: Runtime>(rt: &R) -> io::Result<Option<Job>> {
    let mut args = env::args(rt)?;
    let _ = args.next();
    let (Some(way), Some(held)) = (args.next(), args.next()) else {
        return Ok(None);
    };
    let (Some(calls), Some(threads)) = (args.next(), args.next()) else {
        return Ok(None);
    };
    let Some(way) = read_way(way.as_str()) else {
        return Ok(None);
    };
    let held = read_number(held.as_bytes(), MOST).unwrap_or(1);
    Ok(Some(Job {
        plan: Plan { way, held },
        calls: read_number(calls.as_bytes(), MOST).unwrap_or(0),
        threads: read_number(threads.as_bytes(), MOST).unwrap_or(0),
    }))
}

fn no_memory() -> io::Error {
    io::Error::from(io::ErrorKind::OutOfMemory)
}

/// Fills a table of one thread, and takes the time of the calls.
fn time_one<R: Runtime>(rt: &R, alloc: Global, job: &Job) -> io::Result<(Duration, u64)> {
    let Ok(mut table) = NonceTable::with_room(alloc, MAX_ROOM) else {
        return Err(no_memory());
    };
    let filled = calls_of_one(alloc, &mut table, &job.plan, job.filling());
    let start = Instant::now(rt)?;
    let made = calls_of_one(alloc, &mut table, &job.plan, job.share_of(0));
    let took = start.elapsed(rt)?;
    match (filled, made) {
        (Ok(_), Ok(taken)) => Ok((took, taken)),
        _ => Err(no_memory()),
    }
}

/// Fills a table that threads share, and takes the time of their calls.
fn time_many<R: Runtime + Threads + Wait + Sync>(
    rt: &R,
    alloc: Global,
    job: &Job,
) -> io::Result<(Duration, u64)> {
    let Ok(table) = NonceTable::with_room(alloc, MAX_ROOM) else {
        return Err(no_memory());
    };
    let Ok((nonces, seat)) = SharedNonces::new(alloc, table, 4 * MOST) else {
        return Err(no_memory());
    };
    let mut first = Caller::new(&nonces, seat, job.plan, job.share_of(0));
    if let Some(mut filler) = first.split(job.filling()) {
        filler.call_all(rt, alloc);
    }
    let mut callers = Vec::new(alloc);
    for thread in 0..job.threads {
        if let Some(caller) = first.split(job.share_of(thread)) {
            callers.push(caller)?;
        }
    }
    let threads = job.threads.clamp(1, 64) as usize;
    let start = Instant::now(rt)?;
    thread::for_each_mut(
        rt,
        callers.as_mut_slice(),
        threads,
        &|_, caller| { caller.call_all(rt, alloc) },
    );
    let took = start.elapsed(rt)?;
    let mut taken = 0u64;
    for caller in callers.iter() {
        taken = taken.saturating_add(caller.taken);
    }
    Ok((took, taken))
}

fn run<R: Runtime + AllocGlobal + Threads + Wait + Sync>(rt: &R, alloc: Global) -> io::Result<()> {
    let Some(job) = read_job(rt)? else {
        return Ok(());
    };
    let (took, taken) = if job.threads == 0 {
        time_one(rt, alloc, &job)?
    } else {
        time_many(rt, alloc, &job)?
    };
    let seconds = took.as_secs();
    let nanos = took.subsec_nanos();
    println!(rt; "{seconds} {nanos} {taken}")?;
    Ok(())
}

fn main(rt: HostRuntime) -> ExitCode {
    let alloc = rt.alloc();
    match run(&rt, alloc) {
        Ok(()) => ExitCode::from(0),
        Err(_) => ExitCode::from(1),
    }
}
