//! What the tests of `lab` share.
mod meeting;
mod refusals;
mod runs;

use crate::tests::{Around, runs_over};
use std::alloc::{AllocError, Global};
use std::process::Abort;
use std::sync::Wait;
use std::thread::Threads;
use usp_base::{ListedSink, MemoryFile, Octets, Status, SteadyFiles, SteadySource};
use usp_lab::{Bench, PlainBench};

// The configurations of two edges. The first sends requests on to the second.
const A: &str =
    "{\"edge\":\"a\",\"scheme\":\"https\",\"keys\":[{\"kid\":\"kp\",\"issuer\":\"cp\",\"secret\":\
    \"AQEBAQEBAQEBAQEBAQEBAQEBAQEBAQEBAQEBAQEBAQE\"},{\"kid\":\"ka\",\"issuer\":\"cdn-a\",\"secret\":\
    \"AgICAgICAgICAgICAgICAgICAgICAgICAgICAgICAgI\"}],\"issuers\":[\"cp\",\"cdn-a\"],\"audience\":\
    [\"cdn-a\"],\"sign_kid\":\"ka\",\"routes\":[{\"prefix\":\"/b/\",\"scheme\":\"https\",\"authority\":\
    \"b.example\",\"kid\":\"kab\",\"issuer\":\"cdn-a\",\"secret\":\
    \"AwMDAwMDAwMDAwMDAwMDAwMDAwMDAwMDAwMDAwMDAwM\",\"audience\":\"cdn-b\"}]}";

const B: &str =
    "{\"edge\":\"b\",\"scheme\":\"https\",\"keys\":[{\"kid\":\"kab\",\"issuer\":\"cdn-a\",\"secret\":\
    \"AwMDAwMDAwMDAwMDAwMDAwMDAwMDAwMDAwMDAwMDAwM\"},{\"kid\":\"kb\",\"issuer\":\"cdn-b\",\"secret\":\
    \"BAQEBAQEBAQEBAQEBAQEBAQEBAQEBAQEBAQEBAQEBAQ\"}],\"issuers\":[\"cdn-a\",\"cdn-b\"],\"audience\":\
    [\"cdn-b\"],\"sign_kid\":\"kb\"}";

// A script of one round with two asks, which bring one token with a nonce.
const TWICE: &str = "edge a.json
object a https://a.example/v list
key kp cp AQEBAQEBAQEBAQEBAQEBAQEBAQEBAQEBAQEBAQEBAQE
grant kp {\"iss\":\"cp\",\"aud\":\"cdn-a\",\"exp\":2000,\"jti\":\"n1\",\"cdniuc\":\"regex:^https://[^/]*/\"}
ask a 1000 https://a.example/v query g1
ask a 1000 https://a.example/v query g1
";

// What is written of it: one of the two is first.
const TWICE_SHOWN: [&[u8]; 2] = [
    b"1 a admitted 200 nonce 0 at 1000 chain g1[*-2000]
2 a denied 17 Seen nonce 1 at 1000
edge a calls 2
",
    b"1 a denied 17 Seen nonce 1 at 1000
2 a admitted 200 nonce 0 at 1000 chain g1[*-2000]
edge a calls 2
",
];

fn add_file(
    alloc: Global,
    files: &mut Vec<MemoryFile>,
    name: &str,
    text: &str,
) -> Result<(), AllocError> {
    files.push(MemoryFile {
        name: Octets::of(name.as_bytes().to_vec(alloc)?),
        bytes: Octets::of(text.as_bytes().to_vec(alloc)?),
    })?;
    Ok(())
}

// Both configurations, one of them under two names, and a file that is none.
fn some_files(alloc: Global) -> Result<Vec<MemoryFile>, AllocError> {
    let mut files = Vec::new(alloc);
    add_file(alloc, &mut files, "a.json", A)?;
    add_file(alloc, &mut files, "b.json", B)?;
    add_file(alloc, &mut files, "a b.json", A)?;
    add_file(alloc, &mut files, "none.json", "{}")?;
    Ok(files)
}

// Runs the words over files, a script and a bench, and answers the status and what was written.
fn lab_over<R: Threads + Wait + Sync + Abort + AllocGlobal, B: Bench + Drop>(
    rt: &R,
    words: &[&str],
    files: Vec<MemoryFile>,
    script: &[u8],
    bench: B,
) -> Result<(Status, Vec<u8>), AllocError> {
    let alloc = rt.alloc();
    let around = Around {
        files: SteadyFiles::new(alloc, files),
        input: SteadySource::new(script.to_vec(alloc)?),
        out: ListedSink::new(alloc, Vec::new(alloc)),
        bench,
    };
    runs_over(rt, words, around)
}

// Runs the words over both configurations and a script.
fn lab_runs<R: Threads + Wait + Sync + Abort + AllocGlobal>(
    rt: &R,
    words: &[&str],
    script: &[u8],
) -> Result<(Status, Vec<u8>), AllocError> {
    let files = some_files(rt.alloc())?;
    lab_over(rt, words, files, script, PlainBench::new())
}

fn joined(alloc: Global, pieces: &[&str]) -> Result<Vec<u8>, AllocError> {
    let mut text = Vec::new(alloc);
    for piece in pieces {
        text.extend_from_slice(piece.as_bytes())?;
    }
    Ok(text)
}
