//! Connections of clients, from one listener.
ghost use Rattle.std.specs.Prelude.{◌≡◌, ◌≤◌, None, IfSome};

use crate::limits::MOST_BROKEN;
use crate::outside::line::TcpLine;
use std::io::{ErrorKind, Read, Write};
use std::net::{OpenListener, OpenStream};
use std::rt::Clock;
use usp_base::{Door, Failed};

/// A door of a listener, which other doors may share.
#[derive(Drop)]
pub struct TcpDoor<'a, R, L> {
    rt: &'a R,
    // None where the address could not be listened at.
    listener: Option<&'a L>,
    out: usize,
    faults: u64,
}

impl<'a, R, L> TcpDoor<'a, R, L> {
    /// No line is out. Without a listener each call fails.
    pub fn new(rt: &'a R, listener: Option<&'a L>) -> Self {
        TcpDoor {
            rt,
            listener,
            out: 0,
            faults: 0,
        }
    }
}

impl<'a, R: Clock, L: OpenListener> TcpDoor<'a, R, L>
where
    L::Stream: OpenStream + Drop,
{
    // The next connection. One that was broken off before it was taken is passed over, since it says nothing of the
    // listener.
    fn accepted(&self) -> Option<TcpLine<'a, R, L::Stream>>
        ensures { IfSome result (λ line. (line.read_faults ≡ 0) × (line.put_faults ≡ 0)) }
    {
        let listener = self.listener?;
        for _ in 0..MOST_BROKEN {
            match listener.accept() {
                Ok((stream, _)) => {
                    if let Ok(line) = TcpLine::open(self.rt, stream) {
                        return Some(line);
                    }
                }
                Err(e) => match e.kind() {
                    ErrorKind::ConnectionAborted | ErrorKind::Interrupted => {}
                    _ => return None,
                },
            }
        }
        None
    }
}

impl<'a, R: Clock, L: OpenListener> Door for TcpDoor<'a, R, L>
where
    L::Stream: Read + Write + OpenStream + Drop,
{
    type Line = TcpLine<'a, R, L::Stream>;

    ghost coming = { λ _. None };

    ghost given_back = { λ _. None };

    ghost lines_out = { λ d. d.out };

    ghost door_count = { λ d. d.faults };

    fn next(&mut self) -> Result<Option<TcpLine<'a, R, L::Stream>>, Failed> {
        if self.out < usize::MAX {
            if let Some(line) = self.accepted() {
                self.out += 1;
                return Ok(Some(line));
            }
        }
        self.faults = self.faults.saturating_add(1);
        Err(Failed)
    }

    fn give_back(&mut self, line: TcpLine<'a, R, L::Stream>) {
        self.out -= 1;
        line.close();
    }

    fn door_faults(&self) -> u64 {
        self.faults
    }
}
