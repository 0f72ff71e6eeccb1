//! Reads the heads of the requests on the input, for `bench/heads_rate.py`, which takes the time.
//!
//! `usp_bench_http COUNT PIECE` goes over the input COUNT times, each time as over one connection whose reads give
//! at most PIECE bytes, and prints how many heads there were.
#![tactic(auto)]

ghost use Rattle.std.specs.Prelude.{◌<◌};

use std::alloc::Global;
use std::io::Read;
use std::rt::Runtime;
use std::{env, io};
use usp_base::{ListedSource, read_number};
use usp_http::{HeadReader, Next, NoMemory};

const MOST: u64 = 1_000_000_000;

// The whole input, which is at most 4 MB here.
fn input_of<R: Read>(alloc: Global, reader: &mut R) -> io::Result<Vec<u8>> {
    let mut bytes = Vec::new(alloc);
    let mut piece = [0u8; 4096];
    for _ in 0..1024 {
        let count = reader.read(&mut piece)?;
        if count == 0 {
            break;
        }
        bytes.extend_from_slice(&piece[..count])?;
    }
    Ok(bytes)
}

// How many heads one connection has.
fn heads_of(alloc: Global, bytes: &[u8], piece: usize) -> Result<u64, NoMemory>
    requires { 0 < piece }
{
    let mut source = ListedSource::new(bytes.to_vec(alloc)?, piece, Vec::new(alloc));
    let mut reader = HeadReader::new(alloc)?;
    let mut heads = 0u64;
    for _ in 0..bytes.len() {
        match reader.next_head(&mut source) {
            Next::Found(_) => heads = heads.saturating_add(1),
            _ => return Ok(heads),
        }
    }
    Ok(heads)
}

// A number among the words, or 1.
fn number_in(word: Option<String>) -> u64 {
    let Some(word) = word else {
        return 1;
    };
    read_number(word.as_bytes(), MOST).unwrap_or(1)
}

fn main(rt: HostRuntime) -> io::Result<()> {
    let alloc = rt.alloc();
    let mut args = env::args(&rt)?;
    let _ = args.next();
    let count = number_in(args.next());
    let piece = number_in(args.next()).max(1) as usize;
    let input = input_of(alloc, &mut rt.reader())?;
    let mut heads = 0u64;
    for _ in 0..count {
        heads = heads.saturating_add(heads_of(alloc, &input, piece).unwrap_or(0));
    }
    println!(rt; "{heads}")?;
    Ok(())
}
