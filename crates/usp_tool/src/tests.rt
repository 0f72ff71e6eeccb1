//! What the tests of all commands share, and those of the words, the configuration, the input and the output.
use crate::edge::{Worker, clear_shifts, edge_words};
use crate::run::{Outside, run};
use std::alloc::{AllocError, Global};
use std::process::Abort;
use std::sync::Wait;
use std::test::Fail;
use std::thread::Threads;
use usp_base::{
    Files, ListedFiles, ListedSink, ListedSource, MemoryFile, Octets, Source, Status, SteadyClock,
    SteadyDoor, SteadyFiles, SteadyLink, SteadyObjects, SteadySource,
};
use usp_ext::{Kit, equals, is_any, is_at_most, is_one_of, is_path_prefix};
use usp_lab::{Bench, PlainBench};

// A configuration whose secret is 32 bytes 0x01.
pub const CONF: &str =
    "{\"edge\":\"e\",\"scheme\":\"http\",\"keys\":[{\"kid\":\"k1\",\"issuer\":\"cp\",\"secret\":\
    \"AQEBAQEBAQEBAQEBAQEBAQEBAQEBAQEBAQEBAQEBAQE\"}],\"issuers\":[\"cp\"],\"audience\":[\"e\"],\
    \"sign_kid\":\"k1\"}";

// Sealed under the first secret over `{"cdniuc":"hash:D","exp":100}`, D the segment of `http://h/v`.
pub const TOKEN: &str =
    "eyJhbGciOiJIUzI1NiIsImtpZCI6ImsxIn0.eyJjZG5pdWMiOiJoYXNoOnNoYS0yNTY7eFQ2ME03bEh0R0JWQ2RsaWNo\
    VXdvWnVEZWF4cGxKaHE5RjdXUnE0VUczayIsImV4cCI6MTAwfQ.IQxbyRcNGM0uGKuDwPoNXLlChHOuORxgs8RoLm434\
    Mc";

// `{"cdniuc":"regex:^http://h/","exp":100}`.
pub const EXPRESSION: &str =
    "eyJhbGciOiJIUzI1NiIsImtpZCI6ImsxIn0.eyJjZG5pdWMiOiJyZWdleDpeaHR0cDovL2gvIiwiZXhwIjoxMDB9.R6n\
    4EvhucaWsHO4LuXGGRnpRYGym4rn5XUCNSzc3iTA";

// `{"cdniuc":"regex:^http://h/","jti":"n"}`.
pub const WITH_NONCE: &str =
    "eyJhbGciOiJIUzI1NiIsImtpZCI6ImsxIn0.eyJjZG5pdWMiOiJyZWdleDpeaHR0cDovL2gvIiwianRpIjoibiJ9.Ijk\
    C4Y82oyrBB5sNiYdGNMJFLXJqKBoiTrgRJsDPcs0";

const USAGE: &[u8] =
    b"usage: usp sign CONF KID | check CONF | lab WORKERS | lab-from N | edge CONF ADDRESS WORKERS CONNECTIONS \
      FOLDER | play URI MAP\n";

pub fn words_of(alloc: Global, words: &[&str]) -> Result<Vec<String>, AllocError> {
    let mut texts = Vec::new(alloc);
    for word in words {
        texts.push(String::from_str(alloc, word)?)?;
    }
    Ok(texts)
}

pub fn one_file(alloc: Global, conf: &str) -> Result<Vec<MemoryFile>, AllocError> {
    let mut files = Vec::new(alloc);
    files.push(MemoryFile {
        name: Octets::of(b"c.json".to_vec(alloc)?),
        bytes: Octets::of(conf.as_bytes().to_vec(alloc)?),
    })?;
    Ok(files)
}

/// What a run is over, where no words of `edge` and none of `play` are run.
type Lines<F, S, B> = Outside<
    F,
    S,
    ListedSink,
    SteadyDoor,
    SteadyClock,
    SteadyObjects,
    SteadyLink,
    B,
>;

/// The files, the input, the output and the bench of a run.
#[derive(Drop)]
pub struct Around<F, S, B> {
    pub files: F,
    pub input: S,
    pub out: ListedSink,
    pub bench: B,
}

// Runs words over what is around, and answers the status and what was written.
pub fn runs_over<
    R: Threads + Wait + Sync + Abort + AllocGlobal,
    F: Files + Drop,
    S: Source + Drop,
    B: Bench + Drop,
>(rt: &R, words: &[&str], around: Around<F, S, B>) -> Result<(Status, Vec<u8>), AllocError> {
    let alloc = rt.alloc();
    let words = words_of(alloc, words)?;
    let Around {
        files,
        input,
        out,
        bench,
    } = around;
    let mut outside: Lines<F, S, B> = Outside {
        files,
        input,
        out,
        workers: Vec::new(alloc),
        link: SteadyLink::new(alloc, Vec::new(alloc)),
        bench,
        kit: Kit::new(is_any, equals, is_one_of, is_at_most, is_path_prefix),
    };
    assert!(rt; edge_words(&words).is_none());
    clear_shifts(outside.workers.as_mut_slice());
    let status = run(rt, alloc, &words, &mut outside);
    Ok((status, outside.out.bytes().to_vec(alloc)?))
}

// Runs the words over a configuration and an input, and answers the status and what was written.
pub fn runs<R: Threads + Wait + Sync + Abort + AllocGlobal>(
    rt: &R,
    words: &[&str],
    conf: &str,
    input: &[u8],
) -> Result<(Status, Vec<u8>), AllocError> {
    let alloc = rt.alloc();
    let files = SteadyFiles::new(alloc, one_file(alloc, conf)?);
    let input = SteadySource::new(input.to_vec(alloc)?);
    runs_over(
        rt,
        words,
        Around {
            files,
            input,
            out: ListedSink::new(alloc, Vec::new(alloc)),
            bench: PlainBench::new(),
        },
    )
}

pub fn line(alloc: Global, front: &str, token: &str, back: &str) -> Result<String, AllocError> {
    let mut text = String::from_str(alloc, front)?;
    text.push_str(token)?;
    text.push_str(back)?;
    Ok(text)
}

#[test]
fn other_words_print_the_usage_line(rt: HostRuntime) -> Result<(), Fail> {
    let alloc = rt.alloc();
    let rows: [&[&str]; 15] = [
        &[],
        &["frob"],
        &["check"],
        &["check", "c.json", "x"],
        &["sign", "c.json"],
        &["sign", "c.json", "k1", "x"],
        &["edge", "c.json", "h:80", "0", "1", "."],
        &["play", "http://h/"],
        &["lab"],
        &["lab", "0"],
        &["lab", "17"],
        &["lab", "1", "x"],
        &["lab-from", "0"],
        &["lab-from", "10001"],
        &["--help"],
    ];
    for row in rows {
        let (status, text) = runs(&rt, row, CONF, b"50 http://h/v")?;
        assert_eq!(rt; status, Status::Words);
        assert_eq!(rt; text.as_slice(), USAGE);
    }
    Ok(())
}

// Runs the words over an input whose first read fails, and answers the status and what was written.
fn runs_unread<R: Threads + Wait + Sync + Abort + AllocGlobal>(
    rt: &R,
    words: &[&str],
    conf: &str,
) -> Result<(Status, Vec<u8>), AllocError> {
    let alloc = rt.alloc();
    let mut failing = Vec::new(alloc);
    failing.push(0)?;
    let files = ListedFiles::new(alloc, one_file(alloc, conf)?, Vec::new(alloc));
    let input = ListedSource::new(b"50 http://h/v".to_vec(alloc)?, 4, failing);
    runs_over(
        rt,
        words,
        Around {
            files,
            input,
            out: ListedSink::new(alloc, Vec::new(alloc)),
            bench: PlainBench::new(),
        },
    )
}

#[test]
fn an_input_is_read_only_under_an_accepted_configuration(rt: HostRuntime) -> Result<(), Fail> {
    let alloc = rt.alloc();
    let rows: [(&[&str], &str, Status, &[u8]); 5] = [
        (&["check", "c.json"], CONF, Status::Outside, b""),
        (&["check", "d.json"], CONF, Status::Outside, b""),
        (
            &["check", "c.json"],
            "{}",
            Status::Refused,
            b"refused conf edge\n",
        ),
        (
            &["sign", "c.json", "k9"],
            CONF,
            Status::Refused,
            b"refused key\n",
        ),
        (&["check"], CONF, Status::Words, USAGE),
    ];
    for (words, conf, status, written) in rows {
        let (ended, text) = runs_unread(&rt, words, conf)?;
        assert_eq!(rt; ended, status);
        assert_eq!(rt; text.as_slice(), written);
    }
    Ok(())
}

#[test]
fn a_failed_put_is_status_4(rt: HostRuntime) -> Result<(), Fail> {
    let alloc = rt.alloc();
    let mut unput = Vec::new(alloc);
    unput.push(0)?;
    let files = SteadyFiles::new(alloc, one_file(alloc, CONF)?);
    let input = SteadySource::new(b"50 http://h/v".to_vec(alloc)?);
    let out = ListedSink::new(alloc, unput);
    let around = Around {
        files,
        input,
        out,
        bench: PlainBench::new(),
    };
    let (status, text) = runs_over(&rt, &["check", "c.json"], around)?;
    assert_eq!(rt; status, Status::Outside);
    assert_eq!(rt; text.as_slice(), b"1 denied ".as_slice());
    Ok(())
}

// So many lines of 32,768 bytes, their ends included, and then so many bytes.
fn filled(alloc: Global, lines: usize, more: usize) -> Result<Vec<u8>, AllocError> {
    let mut line = Vec::new(alloc);
    for _ in 0..32_767 {
        line.push(b'7')?;
    }
    line.push(b'\n')?;
    let mut bytes = Vec::with_capacity(alloc, 16_777_217)?;
    for _ in 0..lines {
        bytes.extend_from_slice(&line)?;
    }
    for _ in 0..more {
        bytes.push(b'7')?;
    }
    Ok(bytes)
}

#[test]
fn an_input_has_at_most_16_mebibytes(rt: HostRuntime) -> Result<(), Fail> {
    let alloc = rt.alloc();
    let rows: [(usize, &[u8]); 2] = [(0, b"refused line 1\n"), (1, b"refused input\n")];
    for (more, written) in rows {
        let input = filled(alloc, 512, more)?;
        let (status, text) = runs(&rt, &["check", "c.json"], CONF, &input)?;
        assert_eq!(rt; status, Status::Refused);
        assert_eq!(rt; text.as_slice(), written);
    }
    Ok(())
}
