//! Connections that the player opens over TCP.
ghost use Rattle.std.specs.Prelude.{◌≡◌, ◌≤◌, None, length, IfOk};
ghost use Rattle.usp_base.specs.declared.limits.TheConstants.{LONGEST_ANSWER};

use crate::limits::LINK_SECONDS;
use std::alloc::Global;
use std::io;
use std::io::{Error, ErrorKind, Read, Write};
use std::net::{OpenStream, TcpStream, ToSocketAddrs};
use std::rt::{Clock, Net};
use std::str::from_utf8;
use std::time::{Duration, Instant};
use usp_base::{LONGEST_ANSWER, Link, LoadFault};

// How long a link waits.
fn limit() -> Duration {
    Duration::from_secs(LINK_SECONDS)
}

/// Connections over TCP in clear, one for each ask. An address is a host and a port, as `127.0.0.1:8080`.
#[derive(Drop)]
pub struct TcpLink<'a, R> {
    rt: &'a R,
    faults: u64,
}

impl<'a, R> TcpLink<'a, R> {
    pub fn new(rt: &'a R) -> Self {
        TcpLink { rt, faults: 0 }
    }
}

// Connects to the first address of the name that answers in time.
fn connected<R: Net + Clock>(rt: &R, address: &str) -> io::Result<R::Stream> {
    let begun = Instant::now(rt)?;
    let mut last = Error::from(ErrorKind::TimedOut);
    for place in address.to_socket_addrs(rt)? {
        let left = limit().saturating_sub(begun.elapsed(rt)?);
        if left.is_zero() {
            break;
        }
        match TcpStream::connect_timeout(rt, &place, left) {
            Ok(stream) => return Ok(stream),
            Err(e) => last = e,
        }
    }
    Err(last)
}

// All bytes up to the end, or an error where there are too many.
fn read_answer<S: Read + Drop>(alloc: Global, stream: S) -> io::Result<Vec<u8>>
    ensures { IfOk result (λ bytes. length bytes.items ≤ LONGEST_ANSWER) }
{
    let mut bytes = Vec::new(alloc);
    stream
        .take(LONGEST_ANSWER as u64 + 1)
        .read_to_end(&mut bytes)?;
    if bytes.len() > LONGEST_ANSWER {
        return Err(Error::from(ErrorKind::FileTooLarge));
    }
    Ok(bytes)
}

// Sends the head, and reads all that comes.
fn answer_to<R: Net + Clock>(
    rt: &R,
    alloc: Global,
    address: &[u8],
    head: &[u8],
) -> io::Result<Vec<u8>>
    ensures { IfOk result (λ bytes. length bytes.items ≤ LONGEST_ANSWER) }
{
    let Ok(address) = from_utf8(address) else {
        return Err(Error::from(ErrorKind::InvalidInput));
    };
    let mut stream = connected(rt, address)?;
    stream.set_nodelay(true)?;
    stream.set_read_timeout(Some(limit()))?;
    stream.set_write_timeout(Some(limit()))?;
    stream.write_all(head)?;
    read_answer(alloc, stream)
}

impl<'a, R: Net + Clock> Link for TcpLink<'a, R> {
    ghost asks = { λ _. None };

    ghost link_count = { λ l. l.faults };

    fn ask(&mut self, alloc: Global, address: &[u8], head: &[u8]) -> Result<Vec<u8>, LoadFault> {
        match answer_to(self.rt, alloc, address, head) {
            Ok(bytes) => Ok(bytes),
            Err(e) => {
                if e.kind() == ErrorKind::OutOfMemory {
                    return Err(LoadFault::NoMemory);
                }
                self.faults = self.faults.saturating_add(1);
                Err(LoadFault::Failed)
            }
        }
    }

    fn link_faults(&self) -> u64 {
        self.faults
    }
}
