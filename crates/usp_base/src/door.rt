//! Where connections come from.
ghost use Rattle.std.specs.Prelude.{◌≡◌, ◌≤◌, ◌+◌, ◌++◌, ℕ, List, [], ◌∷◌, All, Option, IfOk, IfSome, IfNone, OnOk, OnErr, IsErr, length, vec_len, vec_capacity};
ghost use Rattle.std.specs.VecDeque.{deque_len};
ghost use Rattle.usp_base.specs.Doors.{Coming, Gone, IsFresh, IsNoMore, known_first, known_more};
ghost use Rattle.usp_base.specs.Counts.{HasCause};
ghost use Rattle.usp_base.specs.WireMemory.{IsFreshSteadyWire, IsFreshWire};

use crate::{Failed, Failures, ListedWire, SteadyWire, Wire};
use http_server::Log;
use std::alloc::{AllocError, Global};
use std::collections::VecDeque;

/// Where connections come from.
pub trait Door {
    type Line: Wire;

    /// The connections to come, each with its bytes, where they are told.
    ghost coming: { Self → Coming };

    /// The lines given back, where they are told.
    ghost given_back: { Self → Option (List Gone) };

    /// How many lines are out.
    ghost lines_out: { Self → ℕ };

    /// How often a call has failed.
    ghost door_count: { Self → ℕ };

    /// The next connection, on which nothing was done. None says that no more come.
    fn next(&mut self) -> Result<Option<Self::Line>, Failed>
        ensures fresh { IfOk result (λ some. IfSome some (λ line.
            IsFresh (Self.Line.read_count line) (Self.Line.put_count line) (Self.Line.told line))) }
        ensures came { IfOk result (λ some. IfSome some (λ line.
            (coming self.old ≡ known_first (Self.Line.left line) (coming self.new))
            × (lines_out self.new ≡ lines_out self.old + 1))) }
        ensures over { IfOk result (λ some. IfNone some (IsNoMore (coming self.old)
            × (coming self.new ≡ coming self.old) × (lines_out self.new ≡ lines_out self.old))) }
        ensures failed { OnErr result ((coming self.new ≡ coming self.old)
            × (lines_out self.new ≡ lines_out self.old)) }
        ensures back { given_back self.new ≡ given_back self.old }
        ensures cause { HasCause (door_count self.old) (door_count self.new) (IsErr result) };

    /// Closes a line. It takes no memory.
    fn give_back(&mut self, line: Self::Line)
        requires { 1 ≤ lines_out self.old }
        ensures back { given_back self.new ≡ known_more (given_back self.old)
            (record {
              told = Self.Line.told line;
              read_faults = Self.Line.read_count line;
              put_faults = Self.Line.put_count line;
            }) }
        ensures coming { coming self.new ≡ coming self.old }
        ensures out { lines_out self.new + 1 ≡ lines_out self.old }
        ensures later { door_count self.old ≤ door_count self.new };

    /// How often a call has failed.
    fn door_faults(&self) -> u64
        ensures { result ≡ door_count self.now };
}

/// A door in memory with a list of connections. Some asks for the next one fail.
#[derive(Drop)]
pub struct ListedDoor {
    coming: VecDeque<ListedWire>,
    back: Vec<ListedWire>,
    out: usize,
    failures: Failures,
    ghost fresh: { All IsFreshWire coming.items },
    ghost room: { out + deque_len coming + vec_len back ≤ vec_capacity back },
}

impl ListedDoor {
    ghost use Rattle.usp_base.specs.DoorMemory.{listed_back, listed_nexts, listed_out, listed_to_come};
    ghost use Rattle.usp_base.specs.Failing.{none_yet};

    /// No connection is to come yet. The asks whose places, from 0, are in `failing` fail, and leave the list
    /// of those to come as it is.
    pub fn new(alloc: Global, failing: Vec<u64>) -> ListedDoor
        ensures coming { listed_to_come result ≡ [] }
        ensures back { listed_back result ≡ [] }
        ensures out { listed_out result ≡ 0 }
        ensures failing { listed_nexts result ≡ none_yet failing.items }
    {
        ListedDoor {
            coming: VecDeque::new(alloc),
            back: Vec::new(alloc),
            out: 0,
            failures: Failures::new(failing),
        }
    }

    /// Lets one more connection come, behind those that are to come. The room for it when it is given back is
    /// taken here.
    pub fn add(&mut self, line: ListedWire) -> Result<(), AllocError>
        requires { IsFreshWire line }
        ensures coming { OnOk result (listed_to_come self.new ≡ listed_to_come self.old ++ line ∷ []) }
        ensures err { OnErr result (listed_to_come self.new ≡ listed_to_come self.old) }
        ensures back { listed_back self.new ≡ listed_back self.old }
        ensures out { listed_out self.new ≡ listed_out self.old }
        ensures failing { listed_nexts self.new ≡ listed_nexts self.old }
    {
        self.back.reserve(self.out + self.coming.len() + 1)?;
        Ok(self.coming.push_back(line)?)
    }

    /// The lines that were given back, in order.
    pub fn back(&self) -> &[ListedWire]
        ensures { result.now ≡ listed_back self.now }
    {
        &self.back
    }
}

impl Door for ListedDoor {
    ghost use Rattle.std.specs.Prelude.{map, Some};
    ghost use Rattle.usp_base.specs.DoorMemory.{listed_back, listed_door_faults, listed_out, listed_to_come};
    ghost use Rattle.usp_base.specs.WireMemory.{gone_of, left_on};

    type Line = ListedWire;

    ghost coming = { λ d. Some (map left_on (listed_to_come d)) };

    ghost given_back = { λ d. Some (map gone_of (listed_back d)) };

    ghost lines_out = { λ d. listed_out d };

    ghost door_count = { λ d. listed_door_faults d };

    fn next(&mut self) -> Result<Option<ListedWire>, Failed> {
        if self.failures.count_call() {
            return Err(Failed);
        }
        match self.coming.pop_front() {
            None => Ok(None),
            Some(line) => {
                self.out += 1;
                Ok(Some(line))
            }
        }
    }

    fn give_back(&mut self, line: ListedWire) {
        self.out -= 1;
        self.back.push_reserved(line);
    }

    fn door_faults(&self) -> u64 {
        self.failures.faults()
    }
}

/// A door in memory that never fails. What it tells of the lines given back takes no memory: only proofs read that.
#[derive(Drop)]
pub struct SteadyDoor {
    coming: VecDeque<SteadyWire>,
    let_in: Log<(), ()>,
    back: Log<SteadyWire, ()>,
    ghost fresh: { All IsFreshSteadyWire coming.items },
    ghost fewer: { length back.items ≤ length let_in.items },
}

impl SteadyDoor {
    ghost use Rattle.usp_base.specs.DoorMemory.{steady_back, steady_out, steady_to_come};

    /// No connection is to come yet.
    pub fn new(alloc: Global) -> SteadyDoor
        ensures coming { steady_to_come result ≡ [] }
        ensures back { steady_back result ≡ [] }
        ensures out { steady_out result ≡ 0 }
    {
        SteadyDoor {
            coming: VecDeque::new(alloc),
            let_in: Log::new(),
            back: Log::new(),
        }
    }

    /// Lets one more connection come, behind those that are to come.
    pub fn add(&mut self, line: SteadyWire) -> Result<(), AllocError>
        requires { IsFreshSteadyWire line }
        ensures coming { OnOk result (steady_to_come self.new ≡ steady_to_come self.old ++ line ∷ []) }
        ensures err { OnErr result (steady_to_come self.new ≡ steady_to_come self.old) }
        ensures back { steady_back self.new ≡ steady_back self.old }
        ensures out { steady_out self.new ≡ steady_out self.old }
    {
        Ok(self.coming.push_back(line)?)
    }
}

impl Door for SteadyDoor {
    ghost use Rattle.std.specs.Prelude.{map, Some};
    ghost use Rattle.usp_base.specs.DoorMemory.{steady_back, steady_out, steady_to_come};
    ghost use Rattle.usp_base.specs.WireMemory.{left_on_steady, steady_gone_of};

    type Line = SteadyWire;

    ghost coming = { λ d. Some (map left_on_steady (steady_to_come d)) };

    ghost given_back = { λ d. Some (map steady_gone_of (steady_back d)) };

    ghost lines_out = { λ d. steady_out d };

    ghost door_count = { λ _. 0 };

    fn next(&mut self) -> Result<Option<SteadyWire>, Failed> {
        match self.coming.pop_front() {
            None => Ok(None),
            Some(line) => {
                self.let_in = self.let_in.and(&(), &());
                Ok(Some(line))
            }
        }
    }

    fn give_back(&mut self, line: SteadyWire) {
        self.back = self.back.and(&line, &());
    }

    fn door_faults(&self) -> u64 {
        0
    }
}
