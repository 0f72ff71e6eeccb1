//! Reads the playlist on the input, for `bench/lists_rate.py`, which takes the time.
//!
//! `usp_bench_player COUNT` reads it COUNT times, and prints how many segments there were.
#![tactic(auto)]

use std::alloc::Global;
use std::io::Read;
use std::rt::Runtime;
use std::{env, io};
use usp_base::read_number;
use usp_player::read_playlist;

const MOST: u64 = 1_000_000_000;

// The whole input, which is at most 4 MB here.
fn input_of<R: Read>(alloc: Global, reader: &mut R) -> io::Result<Vec<u8>> {
    let mut bytes = Vec::new(alloc);
    let mut piece = [0u8; 4096];
    for _ in 0..1024 {
        let count = reader.read(&mut piece)?;
        if count == 0 {
            break;
        }
        bytes.extend_from_slice(&piece[..count])?;
    }
    Ok(bytes)
}

// A number among the words, or 1.
fn number_in(word: Option<String>) -> u64 {
    let Some(word) = word else {
        return 1;
    };
    read_number(word.as_bytes(), MOST).unwrap_or(1)
}

fn main(rt: HostRuntime) -> io::Result<()> {
    let alloc = rt.alloc();
    let mut args = env::args(&rt)?;
    let _ = args.next();
    let count = number_in(args.next());
    let input = input_of(alloc, &mut rt.reader())?;
    let mut segments = 0u64;
    for _ in 0..count {
        if let Ok(list) = read_playlist(alloc, &input) {
            segments = segments.saturating_add(list.segments.rows().len() as u64);
        }
    }
    println!(rt; "{segments}")?;
    Ok(())
}
