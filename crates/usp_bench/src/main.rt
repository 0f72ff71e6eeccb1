//! Repeats one call many times, for the scripts in `bench/`, which take the time.
//!
//! `usp_bench mac N`, `usp_bench json N` and `usp_bench uri N` each print one line that depends on all
//! N answers.
#![tactic(auto)]

use base64::engine::general_purpose::URL_SAFE_NO_PAD;
use std::alloc::{AllocError, Global};
use std::process::ExitCode;
use std::rt::Runtime;
use std::{env, io};
use usp_base::read_number;
use usp_json::read_members;
use usp_jws::Key;
use usp_uri::read_uri;

const MOST: u64 = 1_000_000_000;

const TEXT: usize = 300;

const MEMBERS: u8 = 60;

const URI: &[u8] =
    b"HTTPS://Video.Example.COM:443/%7efolder/./quality_hd/../quality_sd/segment%2d001.mp4?session=4711&token=a.b.c";

// Writes the front of a text over.
fn write_front(text: &mut [u8], front: &[u8]) {
    let n = text.len().min(front.len());
    text[..n].copy_from_slice(&front[..n]);
}

// So many MACs in a row, each over a text of 300 bytes that begins with the one before.
fn macs(key: &Key, count: u64) -> [u8; 32] {
    let mut text = [0u8; TEXT];
    let mut digest = [0u8; 32];
    for _ in 0..count {
        write_front(&mut text, &digest);
        digest = key.mac(&text);
    }
    digest
}

// An object of 60 members with texts of 54 letters, about 4,000 bytes.
fn claim_set(alloc: Global) -> Result<Vec<u8>, AllocError> {
    let mut text = Vec::new(alloc);
    text.push(b'{')?;
    for member in 0..MEMBERS {
        if member > 0 {
            text.push(b',')?;
        }
        text.extend_from_slice(b"\"k")?;
        text.push(b'0' + member / 10)?;
        text.push(b'0' + member % 10)?;
        text.extend_from_slice(b"\":\"abcdefghijklmnopqrstuvwxyzabcdefghijklmnopqrstuvwxyz01\"")?;
    }
    text.push(b'}')?;
    Ok(text)
}

// How many of so many readings succeed.
fn readings(alloc: Global, text: &[u8], count: u64) -> u64 {
    let mut read = 0u64;
    for _ in 0..count {
        if read_members(alloc, text).is_ok() {
            read = read.saturating_add(1);
        }
    }
    read
}

// How many bytes so many normal forms have.
fn normal_bytes(alloc: Global, count: u64) -> u64 {
    let mut bytes = 0u64;
    for _ in 0..count {
        if let Ok(uri) = read_uri(alloc, URI) {
            bytes = bytes.saturating_add(uri.text().len() as u64);
        }
    }
    bytes
}

fn mac_line<R: Runtime + AllocGlobal>(rt: &R, alloc: Global, count: u64) -> io::Result<()> {
    let Ok(key) = Key::new(alloc, b"k1", b"cp", &[1; 32]) else {
        return Ok(());
    };
    let text = URL_SAFE_NO_PAD.encode(alloc, &macs(&key, count))?;
    println!(rt; "{text}")?;
    Ok(())
}

fn json_line<R: Runtime + AllocGlobal>(rt: &R, alloc: Global, count: u64) -> io::Result<()> {
    let text = claim_set(alloc)?;
    let read = readings(alloc, &text, count);
    println!(rt; "{read}")?;
    Ok(())
}

fn uri_line<R: Runtime + AllocGlobal>(rt: &R, alloc: Global, count: u64) -> io::Result<()> {
    let bytes = normal_bytes(alloc, count);
    println!(rt; "{bytes}")?;
    Ok(())
}

fn run<R: Runtime + AllocGlobal>(rt: &R, alloc: Global) -> io::Result<()> {
    let mut args = env::args(rt)?;
    let _ = args.next();
    let (Some(what), Some(count)) = (args.next(), args.next()) else {
        return Ok(());
    };
    let count = read_number(count.as_bytes(), MOST).unwrap_or(0);
    match what.as_str() {
        "mac" => mac_line(rt, alloc, count),
        "json" => json_line(rt, alloc, count),
        "uri" => uri_line(rt, alloc, count),
        _ => Ok(()),
    }
}

fn main(rt: HostRuntime) -> ExitCode {
    let alloc = rt.alloc();
    match run(&rt, alloc) {
        Ok(()) => ExitCode::from(0),
        Err(_) => ExitCode::from(1),
    }
}
