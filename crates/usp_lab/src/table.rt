//! The table of nonces of an edge.
ghost use Rattle.std.specs.Prelude.{◌≡◌, ◌≤◌, ◌+◌, ◌-◌, ◌*◌, [], IfOk, length};
ghost use Rattle.usp_nonce.specs.History.{IsLegal};
ghost use Rattle.usp_nonce.specs.declared.limits.TheConstants.{MAX_CALLS};
ghost use Rattle.usp_shared.specs.Places.{AreAllBelow};
ghost use Rattle.usp_lab.specs.Tables.{Gets, HasRoom, IsFresh, IsWhole, lent, part_of, shared_of};
ghost use Rattle.usp_lab.specs.declared.limits.TheConstants.{CALLS_PER_ASK};
ghost use Rattle.usp_script.specs.declared.limits.TheConstants.{MAX_ASKS};

use crate::NoMemory;
use crate::limits::CALLS_PER_ASK;
use std::alloc::Global;
use std::marker::Model;
use usp_conf::Conf;
use usp_nonce::NonceTable;
use usp_script::MAX_ASKS;
use usp_shared::{Seat, SharedNonces};

/// The table of nonces of an edge, with a seat beside it. Between rounds the seat has the whole share.
#[derive(Drop)]
pub(crate) struct EdgeTable {
    nonces: SharedNonces,
    seat: Seat,
}

impl Model for EdgeTable {
    ghost use Rattle.std.specs.Prelude.{◌≡◌};
    ghost use Rattle.usp_lab.specs.Tables.{TableValue};

    ghost Value = { TableValue };

    ghost view = { λ t. record { shared = t.nonces; seat = t.seat } };

    ghost invariant = { λ t. t.seat.table ≡ t.nonces.table };
}

impl EdgeTable {
    /// A table that has met no call, with calls for as many asks as a script may have.
    pub(crate) fn open(alloc: Global, conf: &Conf) -> Result<EdgeTable, NoMemory>
        ensures fresh { IfOk result (λ table. IsFresh conf.now.room (CALLS_PER_ASK * MAX_ASKS) table) }
        ensures room { IfOk result (λ table. HasRoom MAX_ASKS table) }
        ensures whole { IfOk result (λ table. IsWhole table) }
    {
        let Ok(table) = NonceTable::with_room(alloc, conf.room()) else {
            return Err(NoMemory);
        };
        match SharedNonces::new(alloc, table, CALLS_PER_ASK * MAX_ASKS as u64) {
            Ok((nonces, seat)) => Ok(EdgeTable { nonces, seat }),
            Err(_) => Err(NoMemory),
        }
    }

    /// The nonces, for whoever has a seat of them.
    pub(crate) fn nonces(&self) -> &SharedNonces
        ensures { result.now ≡ self.now.shared }
    {
        &self.nonces
    }

    /// Gives a seat with so many of the calls that are left.
    pub(crate) fn lend(&mut self, part: u64) -> Seat
        requires { part ≤ self.old.seat.left }
        ensures given { result ≡ part_of part self.old.seat }
        ensures table { result.table ≡ self.old.shared.table }
        ensures kept { self.new ≡ lent part self.old }
    {
        match self.nonces.split(&mut self.seat, part) {
            Ok(given) => given,
            Err(_) => unreachable!(),
        }
    }

    /// Takes a seat back.
    pub(crate) fn take_back(&mut self, other: Seat)
        requires { other.table ≡ self.old.shared.table }
        ensures shared { self.new.shared ≡ self.old.shared }
        ensures seat { Gets self.old.seat other self.new.seat }
    {
        self.nonces.join(&mut self.seat, other)
    }

    /// Closes the table, whose seat has the whole share, and answers how many calls were made. They are one legal
    /// history, and the places of the seat are all places in it.
    pub(crate) fn close(self) -> u64
        requires { IsWhole self }
        ensures calls { result ≡ length self.seat.seen }
        ensures legal { IsLegal self.shared.room self.seat.seen }
        ensures all { AreAllBelow (length self.seat.seen) self.seat.places }
        ensures counted { length self.seat.places ≡ length self.seat.seen }
    {
        let EdgeTable { nonces, seat } = self;
        nonces.close(seat).calls()
    }
}
