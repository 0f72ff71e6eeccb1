//! Connections.
ghost use Rattle.std.specs.Prelude.{◌≡◌, List, [], ℕ, Option, Some};
ghost use Rattle.usp_base.specs.Memory.{listed_ended, listed_faults, listed_left, listed_put_faults, listed_told, steady_told, steady_ended, steady_left};

use crate::{Failed, ListedSink, ListedSource, Sink, Source, SteadySink, SteadySource};

/// A connection. A read leaves what was put as it was, and a put leaves what is left to read as it was.
pub trait Wire: Source + Sink {
    ghost read_apart: { (a b : Self) → Self.reads a b
        → (Self.told b ≡ Self.told a) × (Self.put_count b ≡ Self.put_count a) };

    ghost put_apart: { (a b : Self) → Self.puts a b
        → (Self.left b ≡ Self.left a) × (Self.ended b ≡ Self.ended a) × (Self.read_count b ≡ Self.read_count a) };
}

/// A connection in memory, of which some reads and puts fail.
#[derive(Drop)]
pub struct ListedWire {
    pub source: ListedSource,
    pub sink: ListedSink,
}

impl Source for ListedWire {
    ghost left = { λ w. Some (listed_left w.source) };

    ghost ended = { λ w. listed_ended w.source };

    ghost read_count = { λ w. listed_faults w.source };

    ghost reads = { λ w v. v.sink ≡ w.sink };

    fn read(&mut self, into: &mut [u8]) -> Result<usize, Failed> {
        self.source.read(into)
    }

    fn read_faults(&self) -> u64 {
        self.source.read_faults()
    }
}

impl Sink for ListedWire {
    ghost told = { λ w. Some (listed_told w.sink) };

    ghost put_count = { λ w. listed_put_faults w.sink };

    ghost puts = { λ w v. v.source ≡ w.source };

    fn put(&mut self, piece: &[u8]) -> Result<(), Failed> {
        self.sink.put(piece)
    }

    fn put_faults(&self) -> u64 {
        self.sink.put_faults()
    }
}

impl Wire for ListedWire {
    ghost use Rattle.std.proofs.Common.{ap};

    ghost read_apart = { λ a b h. (ap (λ s. Some (listed_told s)) h, ap listed_put_faults h) };

    ghost put_apart = { λ a b h. (ap (λ s. Some (listed_left s)) h, ap listed_ended h, ap listed_faults h) };
}

/// A connection in memory that never fails.
#[derive(Drop)]
pub struct SteadyWire {
    pub source: SteadySource,
    pub sink: SteadySink,
}

impl Source for SteadyWire {
    ghost left = { λ w. Some (steady_left w.source) };

    ghost ended = { λ w. steady_ended w.source };

    ghost read_count = { λ w. 0 };

    ghost reads = { λ w v. v.sink ≡ w.sink };

    fn read(&mut self, into: &mut [u8]) -> Result<usize, Failed> {
        self.source.read(into)
    }

    fn read_faults(&self) -> u64 {
        0
    }
}

impl Sink for SteadyWire {
    ghost told = { λ w. Some (steady_told w.sink) };

    ghost put_count = { λ w. 0 };

    ghost puts = { λ w v. v.source ≡ w.source };

    fn put(&mut self, piece: &[u8]) -> Result<(), Failed> {
        self.sink.put(piece)
    }

    fn put_faults(&self) -> u64 {
        0
    }
}

impl Wire for SteadyWire {
    ghost use Rattle.std.proofs.Common.{ap, refl};

    ghost read_apart = { λ a b h. (ap (λ s. Some (steady_told s)) h, refl) };

    ghost put_apart = { λ a b h. (ap (λ s. Some (steady_left s)) h, ap steady_ended h, refl) };
}
