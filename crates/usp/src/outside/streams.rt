//! Readers and writers as input and output.
ghost use Rattle.std.specs.Prelude.{◌≡◌, ◌≤◌, false, true, length, None, IfOk, IsErr, OnOk};
ghost use Rattle.std.specs.Io.KnownBytes.{Appends, ReadConsumes};
ghost use Rattle.usp_base.specs.Outside.{HasCause};

#[cfg(test)]
mod tests;

use std::io::{Read, Write};
use usp_base::{Failed, Sink, Source};

/// The bytes of a reader. After its end it is not asked again.
#[derive(Drop)]
pub struct Incoming<R> {
    reader: R,
    ended: bool,
    faults: u64,
}

impl<R> Incoming<R> {
    pub fn new(reader: R) -> Self {
        Incoming {
            reader,
            ended: false,
            faults: 0,
        }
    }
}

impl<R: Read + Drop> Source for Incoming<R> {
    ghost left = { λ _. None };

    ghost ended = { λ s. s.ended };

    ghost read_count = { λ s. s.faults };

    ghost reads = { λ _ _. Unit {0} };

    // The first clauses are the trait's. Then: what is answered is what the reader gave, these bytes, no end but
    // its own, and at a failure none; after its end nothing changes.
    fn read(&mut self, into: &mut [u8]) -> Result<usize, Failed>
        ensures count { IfOk result (λ n. n ≤ length into.new) }
        ensures over { IfOk result (λ n. n ≡ 0 → self.new.ended ≡ true) }
        ensures stays_over { self.old.ended ≡ true
            → IfOk result (λ n. n ≡ 0) × (self.new.ended ≡ true) }
        ensures cause { HasCause self.old.faults self.new.faults (IsErr result) }
        ensures given { self.old.ended ≡ false
            → ReadConsumes (R.remaining self.old.reader) (R.remaining self.new.reader)
            result into.new }
        ensures unasked { self.old.ended ≡ true → self.new ≡ self.old }
    {
        if self.ended {
            return Ok(0);
        }
        match self.reader.read(into) {
            Ok(n) => {
                if n == 0 {
                    self.ended = true;
                }
                Ok(n)
            }
            Err(_) => {
                self.faults = self.faults.saturating_add(1);
                Err(Failed)
            }
        }
    }

    fn read_faults(&self) -> u64 {
        self.faults
    }
}

/// A writer, to which each piece goes at once.
#[derive(Drop)]
pub struct Outgoing<W> {
    writer: W,
    faults: u64,
}

impl<W> Outgoing<W> {
    pub fn new(writer: W) -> Self {
        Outgoing { writer, faults: 0 }
    }
}

impl<W: Write + Drop> Sink for Outgoing<W> {
    ghost told = { λ _. None };

    ghost put_count = { λ s. s.faults };

    ghost puts = { λ _ _. Unit {0} };

    // The first clause is the trait's. Then: what the writer takes is the piece.
    fn put(&mut self, piece: &[u8]) -> Result<(), Failed>
        ensures cause { HasCause self.old.faults self.new.faults (IsErr result) }
        ensures given { OnOk result
            (Appends (W.contents self.old.writer) (W.contents self.new.writer) piece.now) }
    {
        if self.writer.write_all(piece).is_err() || self.writer.flush().is_err() {
            self.faults = self.faults.saturating_add(1);
            return Err(Failed);
        }
        Ok(())
    }

    fn put_faults(&self) -> u64 {
        self.faults
    }
}
