//! Who makes the calls.
ghost use Rattle.std.specs.Prelude.{◌≡◌};

use crate::plan::Plan;
use std::alloc::Global;
use std::sync::Wait;
use usp_nonce::{Answer, MAX_CALLS, NoMemory, NonceTable};
use usp_shared::{Seat, SharedNonces};

/// The numbers of some calls: so many, from one on, in steps.
#[derive(Clone, Copy)]
pub struct Calls {
    pub from: u64,
    pub step: u64,
    pub count: u64,
}

/// Makes the calls of the table of one thread, and counts those that took their nonce.
pub fn calls_of_one(
    alloc: Global,
    table: &mut NonceTable,
    plan: &Plan,
    calls: Calls,
) -> Result<u64, NoMemory> {
    let mut taken = 0u64;
    let mut number = calls.from;
    for _ in 0..calls.count {
        let ask = plan.ask(alloc, number, number)?;
        if table.calls() < MAX_CALLS {
            let turned = table.take(ask.key, ask.now, ask.until);
            taken = taken.saturating_add(u64::from(turned.answer == Answer::Taken));
        }
        number = number.wrapping_add(calls.step);
    }
    Ok(taken)
}

/// One of the threads that share a table.
#[derive(Drop)]
pub struct Caller<'a> {
    nonces: &'a SharedNonces,
    seat: Seat,
    plan: Plan,
    calls: Calls,
    // How many calls the table had met after its last one.
    before: u64,
    pub taken: u64,
    ghost of_table: { seat.table ≡ nonces.now.table },
}

impl<'a> Caller<'a> {
    pub fn new(nonces: &'a SharedNonces, seat: Seat, plan: Plan, calls: Calls) -> Caller<'a>
        requires { seat.table ≡ nonces.now.table }
    {
        Caller {
            nonces,
            seat,
            plan,
            calls,
            before: calls.from,
            taken: 0,
        }
    }

    /// A caller beside this one, who has so many of its calls.
    pub fn split(&mut self, calls: Calls) -> Option<Caller<'a>> {
        if self.seat.left() < calls.count {
            return None;
        }
        let seat = self.nonces.split(&mut self.seat, calls.count).ok()?;
        Some(Caller::new(self.nonces, seat, self.plan, calls))
    }

    /// Makes its next call. False where there is none, or no memory for its key.
    fn call<R: Wait>(&mut self, rt: &R, alloc: Global) -> bool {
        if self.seat.left() == 0 {
            return false;
        }
        let Ok(ask) = self.plan.ask(alloc, self.calls.from, self.before) else {
            return false;
        };
        let turned = self.nonces.take(rt, &mut self.seat, ask);
        self.taken = self
            .taken
            .saturating_add(u64::from(turned.answer == Answer::Taken));
        self.before = turned.place.wrapping_add(1);
        self.calls.from = self.calls.from.wrapping_add(self.calls.step);
        true
    }

    /// Makes all its calls.
    pub fn call_all<R: Wait>(&mut self, rt: &R, alloc: Global) {
        for _ in 0..self.calls.count {
            if !self.call(rt, alloc) {
                return;
            }
        }
    }
}
