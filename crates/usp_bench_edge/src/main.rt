//! Serves the requests on the input, for `bench/edge_rate.py`, which takes the time.
//!
//! The first line of the input is the configuration of an edge, and what one connection brings stands behind it.
//! `usp_bench_edge COUNT` serves that COUNT times, each time as one connection in memory and with nonces of its own.
//! The clock stands at 1,000, and each content has the same object of 1,024 bytes. It prints how many requests were
//! noted, and how many bytes were written.
#![tactic(auto)]

ghost use Rattle.std.specs.Prelude.{None};

use std::alloc::Global;
use std::io::Read;
use std::rt::Runtime;
use std::{env, io};
use usp_base::{
    ListedSink, ListedSource, ListedWire, LoadFault, Objects, SteadyClock, first_line, read_number,
};
use usp_conf::{Conf, read_conf};
use usp_edge::{Edge, serve_connection};
use usp_ext::{Kit, equals, is_any, is_at_most, is_one_of, is_path_prefix};
use usp_nonce::NonceTable;

const MOST: u64 = 1_000_000_000;

// The same object for each content. What it has is not told.
#[derive(Drop)]
struct SameObject {
    bytes: Vec<u8>,
}

impl Objects for SameObject {
    ghost objects = { λ _. None };

    ghost object_count = { λ _. 0 };

    fn read(&mut self, alloc: Global, _uri: &[u8]) -> Result<Option<Vec<u8>>, LoadFault> {
        Ok(Some(self.bytes.to_vec(alloc)?))
    }

    fn object_faults(&self) -> u64 {
        0
    }
}

// The whole input, which is at most 4 MB here.
fn input_of<R: Read>(alloc: Global, reader: &mut R) -> io::Result<Vec<u8>> {
    let mut bytes = Vec::new(alloc);
    let mut piece = [0u8; 4096];
    for _ in 0..1024 {
        let count = reader.read(&mut piece)?;
        if count == 0 {
            break;
        }
        bytes.extend_from_slice(&piece[..count])?;
    }
    Ok(bytes)
}

// How many notes one connection leaves, and how many bytes are written on it.
fn served(alloc: Global, kit: &Kit, conf: &Conf, bytes: &[u8]) -> io::Result<(usize, usize)> {
    let mut wire = ListedWire {
        source: ListedSource::new(bytes.to_vec(alloc)?, 16_384, Vec::new(alloc)),
        sink: ListedSink::new(alloc, Vec::new(alloc)),
    };
    let Ok(mut nonces) = NonceTable::with_room(alloc, 128) else {
        return Err(io::Error::from(io::ErrorKind::OutOfMemory));
    };
    let mut clock = SteadyClock::new(1000);
    let mut objects = SameObject {
        bytes: Vec::from_slice(alloc, &[b'x'; 1024])?,
    };
    let mut journal = Vec::new(alloc);
    let edge = Edge { alloc, kit, conf };
    serve_connection(
        &edge,
        &mut wire,
        &mut nonces,
        &mut clock,
        &mut objects,
        &mut journal,
    );
    Ok((journal.len(), wire.sink.bytes().len()))
}

// A number among the words, or 1.
fn number_in(word: Option<String>) -> u64 {
    let Some(word) = word else {
        return 1;
    };
    read_number(word.as_bytes(), MOST).unwrap_or(1)
}

// Serves the input so many times.
fn served_often(alloc: Global, input: &[u8], count: u64) -> io::Result<(usize, usize)> {
    if input.is_empty() {
        return Ok((0, 0));
    }
    let (text, bytes) = first_line(input);
    let Ok(conf) = read_conf(alloc, text) else {
        return Err(io::Error::from(io::ErrorKind::InvalidData));
    };
    let kit = Kit::new(is_any, equals, is_one_of, is_at_most, is_path_prefix);
    let mut notes = 0usize;
    let mut written = 0usize;
    for _ in 0..count {
        let once = served(alloc, &kit, &conf, bytes)?;
        notes = notes.saturating_add(once.0);
        written = written.saturating_add(once.1);
    }
    Ok((notes, written))
}

fn main(rt: HostRuntime) -> io::Result<()> {
    let alloc = rt.alloc();
    let mut args = env::args(&rt)?;
    let _ = args.next();
    let count = number_in(args.next());
    let input = input_of(alloc, &mut rt.reader())?;
    let (notes, written) = served_often(alloc, &input, count)?;
    println!(rt; "{notes} {written}")?;
    Ok(())
}
