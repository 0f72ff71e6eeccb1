//! How long a line waits for its client, over a clock that moves only while it waits.
use crate::outside::TcpLine;
use std::cell::Cell;
use std::io::{Error, ErrorKind, Read, Result as IoResult, Write};
use std::net::{OpenStream, Shutdown};
use std::rt::Clock;
use std::test::Fail;
use std::time::Duration;
use usp_base::{Failed, Sink, Source};

// Times in milliseconds.
#[derive(Drop)]
struct World {
    now: Cell<u64>,
    limit: Cell<u64>,
}

impl Clock for World {
    fn monotonic(&self) -> IoResult<Duration> {
        Ok(Duration::from_millis(self.now.get()))
    }

    fn since_1970(&self) -> IoResult<Duration> {
        Err(Error::from(ErrorKind::Unsupported))
    }
}

// A client that sends those bytes at those moments, and takes so many bytes at all.
#[derive(Drop)]
struct Client<'a> {
    world: &'a World,
    sends: &'a [(u64, &'a [u8])],
    takes: usize,
}

impl<'a> Read for Client<'a> {
    fn read(&mut self, into: &mut [u8]) -> IoResult<usize> {
        let over = self.world.now.get().saturating_add(self.world.limit.get());
        match self.sends.first() {
            Some((moment, bytes)) if *moment <= over => {
                self.world.now.set(self.world.now.get().max(*moment));
                let n = bytes.len().min(into.len());
                into[..n].copy_from_slice(&bytes[..n]);
                self.sends = &self.sends[1..];
                Ok(n)
            }
            _ => {
                self.world.now.set(over);
                Err(Error::from(ErrorKind::WouldBlock))
            }
        }
    }
}

impl<'a> Write for Client<'a> {
    fn write(&mut self, piece: &[u8]) -> IoResult<usize> {
        let n = piece.len().min(self.takes);
        if n == 0 {
            return Err(Error::from(ErrorKind::WouldBlock));
        }
        self.takes -= n;
        Ok(n)
    }

    fn flush(&mut self) -> IoResult<()> {
        Ok(())
    }
}

impl<'a> OpenStream for Client<'a> {
    fn set_nodelay(&self, _nodelay: bool) -> IoResult<()> {
        Ok(())
    }

    fn set_write_timeout(&self, _limit: Option<Duration>) -> IoResult<()> {
        Ok(())
    }

    fn set_read_timeout(&self, limit: Option<Duration>) -> IoResult<()> {
        let limit = limit.unwrap_or(Duration::from_secs(1000));
        self.world
            .limit
            .set(limit.as_millis().min(1_000_000) as u64);
        Ok(())
    }

    fn shutdown(&self, _how: Shutdown) -> IoResult<()> {
        Ok(())
    }
}

// When a client is taken as ended that is answered behind each read whose number is in `answered`.
fn end_of(sends: &[(u64, &[u8])], answered: &[u64]) -> Result<u64, Fail> {
    let world = World {
        now: Cell::new(7000),
        limit: Cell::new(0),
    };
    let client = Client {
        world: &world,
        sends,
        takes: 1000,
    };
    let mut line = TcpLine::open(&world, client)?;
    let mut into = [0u8; 64];
    for at in 0..100u64 {
        let n = line.read(&mut into)?;
        if n == 0 {
            return Ok(world.now.get());
        }
        if answered.contains(&at) {
            line.put(b"ok")?;
        }
    }
    Ok(0)
}

#[test]
fn a_client_that_waits_too_long_is_taken_as_ended(rt: HostRuntime) -> Result<(), Fail> {
    let head: &[u8] = b"GET / HTTP/1.1\r\nHost: h\r\n\r\n";
    let two: &[u8] = b"GET / HTTP/1.1\n\nGET / HTTP/1.1\n\n";
    let more: &[u8] = b"GET / HTTP/1.1\r\n\r\nGET ";
    let slow: [(u64, &[u8]); 6] = [
        (8000, b"GET"),
        (12000, b" / "),
        (17000, b"H"),
        (26000, b"T"),
        (36000, b"T"),
        (38000, b"P"),
    ];
    let halves: [(u64, &[u8]); 2] = [(8000, b"GET / HTTP/1.1\r\n\r"), (20000, b"\n")];
    let rows: [(&[(u64, &[u8])], &[u64], u64); 9] = [
        // It is connected at 7000.
        (&[], &[], 12000),
        (&[(12001, head)], &[], 12000),
        (&[(12000, b"G")], &[], 37000),
        (&slow, &[], 37000),
        // It is answered at 8000.
        (&[(8000, head)], &[0], 13000),
        (&[(8000, two)], &[0], 13000),
        (&[(8000, more)], &[0], 38000),
        (&[(8000, head), (9000, b"\r\n")], &[0], 14000),
        (&halves, &[1], 25000),
    ];
    for (row, (sends, answered, end)) in rows.iter().enumerate() {
        assert_eq!(rt; end_of(*sends, *answered)?, *end, "row {row}");
    }
    Ok(())
}

#[test]
fn a_client_that_takes_nothing_is_a_fault(rt: HostRuntime) -> Result<(), Fail> {
    let world = World {
        now: Cell::new(0),
        limit: Cell::new(0),
    };
    let client = Client {
        world: &world,
        sends: &[],
        takes: 3,
    };
    let mut line = TcpLine::open(&world, client)?;
    assert_eq!(rt; line.put(b"ok"), Ok::<(), Failed>(()));
    assert_eq!(rt; line.put(b"ok"), Err::<(), Failed>(Failed));
    assert_eq!(rt; line.put_faults(), 1);
    assert_eq!(rt; line.read_faults(), 0);
    Ok(())
}
