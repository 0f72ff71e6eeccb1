//! Where the connections of a lab come from.
ghost use Rattle.std.specs.Prelude.{◌≡◌, ◌≤◌, ◌+◌, [], ◌∷◌, ℕ, List, Option, Some, IfOk, OnOk, OnErr, length, vec_len, vec_capacity};
ghost use Rattle.usp_lab.specs.Benches.{IsTold, IsUsed, Used, append_used};

use crate::NoMemory;
use http_server::Log;
use std::alloc::Global;
use usp_base::{SteadySink, SteadySource, SteadyWire, Wire};

/// A connection whose calls never fail, and that tells its bytes.
pub trait Calm: Wire {
    ghost never_fails: { (a : Self) → (Self.read_count a ≡ 0) × (Self.put_count a ≡ 0) };

    ghost tells: { (a : Self) → IsTold (Self.left a) × IsTold (Self.told a) };
}

impl Calm for SteadyWire {
    ghost use Rattle.std.proofs.Common.{refl};
    ghost use Rattle.usp_base.specs.Memory.{steady_left, steady_told};

    ghost never_fails = { λ a. (refl, refl) };

    ghost tells = { λ a. ((steady_left a.source, refl), (steady_told a.sink, refl)) };
}

/// Where the connections of a lab come from.
pub trait Bench {
    type Line: Calm + Send + Drop;

    /// The lines given back, where they are told.
    ghost given_back: { Self → Option (List Used) };

    /// How many lines are out.
    ghost lines_out: { Self → ℕ };

    /// A connection on which these bytes are to be read and nothing was put. The room that `back` needs is taken here.
    fn line(&mut self, alloc: Global, head: Vec<u8>) -> Result<Self::Line, NoMemory>
        ensures fresh { IfOk result (λ line.
            (Self.Line.left line ≡ Some head.items) × (Self.Line.told line ≡ Some [])) }
        ensures out { OnOk result (lines_out self.new ≡ lines_out self.old + 1) }
        ensures refused { OnErr result (lines_out self.new ≡ lines_out self.old) }
        ensures back { given_back self.new ≡ given_back self.old };

    /// Takes a connection back. It takes no memory.
    fn back(&mut self, line: Self::Line)
        requires { 1 ≤ lines_out self.old }
        ensures back { (used : Used) → IsUsed (Self.Line.left line) (Self.Line.told line) used
            → given_back self.new ≡ append_used (given_back self.old) (used ∷ []) }
        ensures out { lines_out self.new + 1 ≡ lines_out self.old };
}

/// A bench that drops the lines given back, and tells nothing.
#[derive(Drop)]
pub struct PlainBench {
    lent: Log<(), ()>,
    back: Log<(), ()>,
    ghost fewer: { length back.items ≤ length lent.items },
}

impl PlainBench {
    ghost use Rattle.usp_lab.specs.BenchMemory.{plain_out};

    /// No line is out.
    pub fn new() -> PlainBench
        ensures { plain_out result ≡ 0 }
    {
        PlainBench {
            lent: Log::new(),
            back: Log::new(),
        }
    }
}

impl Bench for PlainBench {
    ghost use Rattle.std.specs.Prelude.{None};
    ghost use Rattle.usp_lab.specs.BenchMemory.{plain_out};

    type Line = SteadyWire;

    ghost given_back = { λ _. None };

    ghost lines_out = { λ bench. plain_out bench };

    fn line(&mut self, _alloc: Global, head: Vec<u8>) -> Result<SteadyWire, NoMemory> {
        self.lent = self.lent.and(&(), &());
        Ok(SteadyWire {
            source: SteadySource::new(head),
            sink: SteadySink::new(),
        })
    }

    fn back(&mut self, _line: SteadyWire) {
        self.back = self.back.and(&(), &());
    }
}

/// A bench that keeps the lines given back, and tells them.
#[derive(Drop)]
pub struct KeptBench {
    back: Vec<SteadyWire>,
    out: usize,
    ghost room: { out + vec_len back ≤ vec_capacity back },
}

impl KeptBench {
    ghost use Rattle.usp_lab.specs.BenchMemory.{kept_lines, kept_out};

    /// No line is out, and none was given back.
    pub fn new(alloc: Global) -> KeptBench
        ensures lines { kept_lines result ≡ [] }
        ensures out { kept_out result ≡ 0 }
    {
        KeptBench {
            back: Vec::new(alloc),
            out: 0,
        }
    }

    /// The lines that were given back, in order.
    pub fn lines(&self) -> &[SteadyWire]
        ensures { result.now ≡ kept_lines self.now }
    {
        &self.back
    }
}

impl Bench for KeptBench {
    ghost use Rattle.std.specs.Prelude.{map};
    ghost use Rattle.usp_lab.specs.BenchMemory.{kept_lines, kept_out, used_of};

    type Line = SteadyWire;

    ghost given_back = { λ bench. Some (map used_of (kept_lines bench)) };

    ghost lines_out = { λ bench. kept_out bench };

    fn line(&mut self, _alloc: Global, head: Vec<u8>) -> Result<SteadyWire, NoMemory> {
        self.back.reserve(self.out + 1)?;
        self.out += 1;
        Ok(SteadyWire {
            source: SteadySource::new(head),
            sink: SteadySink::new(),
        })
    }

    fn back(&mut self, line: SteadyWire) {
        self.out -= 1;
        self.back.push_reserved(line);
    }
}
