//! A connection of a client over TCP.
ghost use Rattle.std.specs.Prelude.{◌≡◌, ◌≤◌, length, None, IfOk};

use crate::limits::{CLOSE_SECONDS, MOST_DRAINS, MOST_TRIES, WRITE_SECONDS};
use crate::outside::patience::{Tail, patience};
use std::io;
use std::io::{Error, ErrorKind, Read, Write};
use std::net::{OpenStream, Shutdown};
use std::rt::Clock;
use std::time::{Duration, Instant};
use usp_base::{Failed, Sink, Source, Wire};

/// A connection of a client. A client that waits too long is taken as ended.
#[derive(Drop)]
pub struct TcpLine<'a, R, S> {
    rt: &'a R,
    stream: S,
    tail: Tail,
    // When the client was connected or last answered.
    answered: Instant,
    // The limit that the stream has for its reads.
    limit: Option<Duration>,
    ended: bool,
    read_faults: u64,
    put_faults: u64,
}

impl<'a, R: Clock, S: OpenStream + Drop> TcpLine<'a, R, S> {
    /// A line over a stream that was just connected.
    ///
    /// # Errors
    ///
    /// An option of the stream cannot be set, or the clock cannot be read.
    pub fn open(rt: &'a R, stream: S) -> io::Result<Self>
        ensures { IfOk result (λ line. (line.read_faults ≡ 0) × (line.put_faults ≡ 0)) }
    {
        // A reply leaves at once.
        stream.set_nodelay(true)?;
        stream.set_write_timeout(Some(Duration::from_secs(WRITE_SECONDS)))?;
        Ok(TcpLine {
            rt,
            stream,
            tail: Tail::new(),
            answered: Instant::now(rt)?,
            limit: None,
            ended: false,
            read_faults: 0,
            put_faults: 0,
        })
    }

    // Lets the reads of the stream wait that long.
    fn wait_at_most(&mut self, limit: Duration) -> io::Result<()>
        ensures { (self.new.ended ≡ self.old.ended) × (self.new.read_faults ≡ self.old.read_faults)
            × (self.new.put_faults ≡ self.old.put_faults) }
    {
        if self.limit != Some(limit) {
            self.stream.set_read_timeout(Some(limit))?;
            self.limit = Some(limit);
        }
        Ok(())
    }
}

impl<'a, R: Clock, S: Read + OpenStream + Drop> TcpLine<'a, R, S> {
    // Reads once from the client. It gives 0 too where the client has waited too long.
    fn receive(&mut self, into: &mut [u8]) -> io::Result<usize>
        ensures count { IfOk result (λ n. n ≤ length into.new) }
        ensures same { (self.new.ended ≡ self.old.ended) × (self.new.read_faults ≡ self.old.read_faults)
            × (self.new.put_faults ≡ self.old.put_faults) }
    {
        for _ in 0..MOST_TRIES {
            let passed = self.answered.elapsed(self.rt)?;
            let Some(limit) = patience(passed, self.tail.ends_a_head()) else {
                return Ok(0);
            };
            self.wait_at_most(limit)?;
            match self.stream.read(into) {
                Ok(n) => return Ok(n),
                Err(e) => match e.kind() {
                    ErrorKind::WouldBlock | ErrorKind::TimedOut => return Ok(0),
                    ErrorKind::Interrupted => {}
                    _ => return Err(e),
                },
            }
        }
        Err(Error::from(ErrorKind::Interrupted))
    }

    /// Closes the connection. What the client sent and nobody read would make the system break it off, and the last
    /// reply might be lost: so it is read, for a short time, until the client closes its side.
    pub fn close(mut self) {
        if self.ended || self.put_faults > 0 || self.stream.shutdown(Shutdown::Write).is_err() {
            return;
        }
        let Ok(begun) = Instant::now(self.rt) else {
            return;
        };
        let mut unread = [0u8; 4096];
        for _ in 0..MOST_DRAINS {
            let Ok(passed) = begun.elapsed(self.rt) else {
                return;
            };
            let left = Duration::from_secs(CLOSE_SECONDS).saturating_sub(passed);
            if left.is_zero() || self.wait_at_most(left).is_err() {
                return;
            }
            match self.stream.read(&mut unread) {
                Ok(n) if n > 0 => {}
                _ => return,
            }
        }
    }
}

impl<'a, R: Clock, S: Read + OpenStream + Drop> Source for TcpLine<'a, R, S> {
    ghost left = { λ _. None };

    ghost ended = { λ l. l.ended };

    ghost read_count = { λ l. l.read_faults };

    ghost reads = { λ l m. m.put_faults ≡ l.put_faults };

    fn read(&mut self, into: &mut [u8]) -> Result<usize, Failed> {
        if self.ended {
            return Ok(0);
        }
        match self.receive(into) {
            Ok(n) => {
                if n == 0 {
                    self.ended = true;
                }
                self.tail = self.tail.behind(&into[..n]);
                Ok(n)
            }
            Err(_) => {
                self.read_faults = self.read_faults.saturating_add(1);
                Err(Failed)
            }
        }
    }

    fn read_faults(&self) -> u64 {
        self.read_faults
    }
}

impl<'a, R: Clock, S: Write + OpenStream + Drop> Sink for TcpLine<'a, R, S> {
    ghost told = { λ _. None };

    ghost put_count = { λ l. l.put_faults };

    ghost puts = { λ l m. (m.ended ≡ l.ended) × (m.read_faults ≡ l.read_faults) };

    fn put(&mut self, piece: &[u8]) -> Result<(), Failed> {
        if self.stream.write_all(piece).is_err() {
            self.put_faults = self.put_faults.saturating_add(1);
            return Err(Failed);
        }
        // Where the clock cannot be read, the client has the time that it had before.
        if let Ok(now) = Instant::now(self.rt) {
            self.answered = now;
        }
        Ok(())
    }

    fn put_faults(&self) -> u64 {
        self.put_faults
    }
}

impl<'a, R: Clock, S: Read + Write + OpenStream + Drop> Wire for TcpLine<'a, R, S> {
    ghost use Rattle.std.proofs.Common.{refl};

    ghost read_apart = { λ a b h. (refl, h) };

    ghost put_apart = { λ a b h. (refl, h.0, h.1) };
}
