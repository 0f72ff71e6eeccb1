//! Appends to a ledger and look-ups in it, for `bench/trace_rate.py`.
//!
//! `usp_bench_trace WAY HELD ROUNDS` prints the seconds and the nanoseconds that ROUNDS rounds took, and how many
//! tokens they found. WAY is one of these:
//!
//! - `append`: a round appends HELD grants of different tokens to a new ledger;
//! - `find`: a round asks a ledger of HELD grants for the first place of each of its tokens;
//! - `miss`: a round asks it for as many tokens that it has not.
#![tactic(auto)]

mod tokens;

use crate::tokens::{no_memory, token_of};
use std::alloc::Global;
use std::process::ExitCode;
use std::rt::Runtime;
use std::time::{Duration, Instant};
use std::{env, io};
use usp_base::read_number;
use usp_jws::Token;
use usp_trace::{Issue, Ledger, MAX_ISSUES};

/// The most of each number.
const MOST: u64 = 1_000_000;

#[derive(Clone, Copy)]
enum Way {
    Append,
    Find,
    Miss,
}

/// What was asked for on the command line.
#[derive(Clone, Copy)]
struct Job {
    way: Way,
    held: u32,
    rounds: u32,
}

fn read_way(word: &str) -> Option<Way> {
    match word {
        "append" => Some(Way::Append),
        "find" => Some(Way::Find),
        "miss" => Some(Way::Miss),
        _ => None,
    }
}

fn number_in(word: &str) -> u32 {
    match read_number(word.as_bytes(), MOST) {
        Some(number) if number <= MOST => number as u32,
        _ => 1,
    }
}

fn read_job<R: Runtime>(rt: &R) -> io::Result<Option<Job>> {
    let mut args = env::args(rt)?;
    let _ = args.next();
    let (Some(way), Some(held)) = (args.next(), args.next()) else {
        return Ok(None);
    };
    let Some(rounds) = args.next() else {
        return Ok(None);
    };
    let Some(way) = read_way(way.as_str()) else {
        return Ok(None);
    };
    Ok(Some(Job {
        way,
        held: number_in(held.as_str()),
        rounds: number_in(rounds.as_str()),
    }))
}

/// So many tokens, from a number on.
fn tokens_from(alloc: Global, first: u32, count: u32) -> io::Result<Vec<Token>> {
    let mut tokens = Vec::with_capacity(alloc, count as usize)?;
    for at in 0..count {
        tokens.push(token_of(alloc, first.wrapping_add(at))?)?;
    }
    Ok(tokens)
}

/// A ledger of grants of the tokens.
fn ledger_of(alloc: Global, tokens: Vec<Token>) -> io::Result<Ledger> {
    let mut ledger = Ledger::empty(alloc);
    for token in tokens {
        if ledger.len() < MAX_ISSUES {
            if ledger.append(Issue::Grant { token }).is_err() {
                return Err(no_memory());
            }
        }
    }
    Ok(ledger)
}

/// How many of the tokens the ledger has.
fn found_in(ledger: &Ledger, tokens: &[Token]) -> u32 {
    let mut found = 0u32;
    for token in tokens {
        if ledger.first_place(token.text()).is_some() {
            found = found.saturating_add(1);
        }
    }
    found
}

fn time_appends<R: Runtime>(rt: &R, alloc: Global, job: Job) -> io::Result<(Duration, u32)> {
    let mut took = Duration::ZERO;
    let mut found = 0u32;
    for _ in 0..job.rounds {
        let tokens = tokens_from(alloc, 0, job.held)?;
        let start = Instant::now(rt)?;
        let ledger = ledger_of(alloc, tokens)?;
        took = took.saturating_add(start.elapsed(rt)?);
        found = found.saturating_add(ledger.len());
    }
    Ok((took, found))
}

fn time_finds<R: Runtime>(
    rt: &R,
    alloc: Global,
    job: Job,
    first: u32,
) -> io::Result<(Duration, u32)> {
    let ledger = ledger_of(alloc, tokens_from(alloc, 0, job.held)?)?;
    let tokens = tokens_from(alloc, first, job.held)?;
    let start = Instant::now(rt)?;
    let mut found = 0u32;
    for _ in 0..job.rounds {
        found = found.saturating_add(found_in(&ledger, &tokens));
    }
    Ok((start.elapsed(rt)?, found))
}

fn run<R: Runtime>(rt: &R, alloc: Global) -> io::Result<()> {
    let Some(job) = read_job(rt)? else {
        return Ok(());
    };
    let (took, found) = match job.way {
        Way::Append => time_appends(rt, alloc, job)?,
        Way::Find => time_finds(rt, alloc, job, 0)?,
        Way::Miss => time_finds(rt, alloc, job, job.held)?,
    };
    let seconds = took.as_secs();
    let nanos = took.subsec_nanos();
    println!(rt; "{seconds} {nanos} {found}")?;
    Ok(())
}

fn main(rt: HostRuntime) -> ExitCode {
    let alloc = rt.alloc();
    match run(&rt, alloc) {
        Ok(()) => ExitCode::from(0),
        Err(_) => ExitCode::from(1),
    }
}
