//! Input and output over readers and writers that fail.
use super::{Incoming, Outgoing};
use std::alloc::Global;
use std::io::{Error, ErrorKind, Read, Result as IoResult, Write};
use std::test::Fail;
use usp_base::{Failed, Sink, Source};

// A reader of some bytes, at most so many a call. The calls whose places, from 0, are in `failing` fail, and those in
// `empty` give nothing, as at an end.
#[derive(Drop)]
struct Pipe<'a> {
    bytes: &'a [u8],
    most: usize,
    calls: u64,
    failing: &'a [u64],
    empty: &'a [u64],
}

impl<'a> Read for Pipe<'a> {
    fn read(&mut self, into: &mut [u8]) -> IoResult<usize> {
        let call = self.calls;
        self.calls = self.calls.saturating_add(1);
        if self.failing.contains(&call) {
            return Err(Error::from(ErrorKind::BrokenPipe));
        }
        if self.empty.contains(&call) {
            return Ok(0);
        }
        let n = self.bytes.len().min(self.most).min(into.len());
        into[..n].copy_from_slice(&self.bytes[..n]);
        self.bytes = &self.bytes[n..];
        Ok(n)
    }
}

// What was written and how much of it was flushed. A write takes at most two bytes, and one beyond `room` fails.
#[derive(Drop)]
struct Tray {
    bytes: Vec<u8>,
    room: usize,
    flushed: usize,
    stuck: bool,
}

impl Tray {
    fn new(alloc: Global, room: usize, stuck: bool) -> Tray {
        Tray {
            bytes: Vec::new(alloc),
            room,
            flushed: 0,
            stuck,
        }
    }
}

impl Write for Tray {
    fn write(&mut self, piece: &[u8]) -> IoResult<usize> {
        let n = piece.len().min(2);
        if self.bytes.len() >= self.room {
            return Err(Error::from(ErrorKind::BrokenPipe));
        }
        self.bytes.extend_from_slice(&piece[..n])?;
        Ok(n)
    }

    fn flush(&mut self) -> IoResult<()> {
        if self.stuck {
            return Err(Error::from(ErrorKind::BrokenPipe));
        }
        self.flushed = self.bytes.len();
        Ok(())
    }
}

#[test]
fn a_reader_is_read_to_its_end(rt: HostRuntime) -> Result<(), Fail> {
    let mut input = Incoming::new(b"abc".as_slice());
    let mut buffer = [b'x'; 2];
    let rows: [(usize, [u8; 2]); 4] = [(2, *b"ab"), (1, *b"cb"), (0, *b"cb"), (0, *b"cb")];
    for (count, bytes) in rows {
        assert_eq!(rt; input.read(&mut buffer), Ok::<usize, Failed>(count));
        assert_eq!(rt; buffer, bytes);
    }
    assert_eq!(rt; input.read_faults(), 0);
    Ok(())
}

#[test]
fn a_failed_read_is_no_end_and_loses_nothing(rt: HostRuntime) -> Result<(), Fail> {
    let mut input = Incoming::new(Pipe {
        bytes: b"abcde",
        most: 3,
        calls: 0,
        failing: &[0, 2],
        empty: &[],
    });
    let mut buffer = [b'x'; 4];
    let rows: [(Result<usize, Failed>, [u8; 4]); 5] = [
        (Err(Failed), *b"xxxx"),
        (Ok(3), *b"abcx"),
        (Err(Failed), *b"abcx"),
        (Ok(2), *b"decx"),
        (Ok(0), *b"decx"),
    ];
    for (answer, bytes) in rows {
        assert_eq!(rt; input.read(&mut buffer), answer);
        assert_eq!(rt; buffer, bytes);
    }
    assert_eq!(rt; input.read_faults(), 2);
    Ok(())
}

#[test]
fn a_reader_is_not_asked_after_its_end(rt: HostRuntime) -> Result<(), Fail> {
    let mut input = Incoming::new(Pipe {
        bytes: b"abc",
        most: 4,
        calls: 0,
        failing: &[2],
        empty: &[0],
    });
    let mut buffer = [b'x'; 4];
    for _ in 0..3 {
        assert_eq!(rt; input.read(&mut buffer), Ok::<usize, Failed>(0));
        assert_eq!(rt; buffer, *b"xxxx");
    }
    assert_eq!(rt; input.reader.calls, 1);
    assert_eq!(rt; input.read_faults(), 0);
    Ok(())
}

#[test]
fn a_piece_is_written_whole_and_flushed(rt: HostRuntime) -> Result<(), Fail> {
    let alloc = rt.alloc();
    let mut out = Outgoing::new(Tray::new(alloc, 16, false));
    assert_eq!(rt; out.put(b"abc"), Ok::<(), Failed>(()));
    assert_eq!(rt; out.writer.bytes.as_slice(), b"abc".as_slice());
    assert_eq!(rt; out.writer.flushed, 3);
    assert_eq!(rt; out.put(b"de"), Ok::<(), Failed>(()));
    assert_eq!(rt; out.writer.bytes.as_slice(), b"abcde".as_slice());
    assert_eq!(rt; out.writer.flushed, 5);
    assert_eq!(rt; out.put_faults(), 0);
    Ok(())
}

#[test]
fn a_failed_write_or_flush_is_counted(rt: HostRuntime) -> Result<(), Fail> {
    let alloc = rt.alloc();
    let mut full = Outgoing::new(Tray::new(alloc, 4, false));
    assert_eq!(rt; full.put(b"abcdef"), Err::<(), Failed>(Failed));
    assert_eq!(rt; full.writer.bytes.as_slice(), b"abcd".as_slice());
    assert_eq!(rt; full.put_faults(), 1);
    let mut stuck = Outgoing::new(Tray::new(alloc, 16, true));
    assert_eq!(rt; stuck.put(b"abc"), Err::<(), Failed>(Failed));
    assert_eq!(rt; stuck.put_faults(), 1);
    Ok(())
}
