//! A nonce table that threads share.
ghost use Rattle.std.specs.Prelude.{◌≡◌, ◌+◌, ◌-◌, ◌<◌, ◌≤◌, List, [], ◌∷◌, ◌++◌, length, IfOk, IfErr, IsOk};
ghost use mathlib.Core.List.{IsPrefix};
ghost use Rattle.usp_nonce.specs.History.{IsLegal};
ghost use Rattle.usp_nonce.specs.Stands.{StandsFor, call_of};
ghost use Rattle.usp_shared.specs.Histories.{IsEntered, longer_of};
ghost use Rattle.usp_shared.specs.Places.{AreAllBelow, AreDistinctBelow};

use crate::rule::Owned;
use crate::seat::Seat;
use crate::turn;
use crate::turn::NonceAsk;
use std::alloc::Global;
use std::error::Error;
use std::fmt;
use std::marker::{Brand, Model};
use std::sync::Wait;
use std::sync::atomic::AtomicU64;
use usp_nonce::{MAX_CALLS, MAX_UNTIL, MOMENT_LIMIT, NonceTable, Turned};

/// There is no memory left.
#[derive(Clone, Copy, Debug, PartialEq, Eq)]
pub struct NoMemory;

impl fmt::Display for NoMemory {
    fn fmt<W: fmt::Write>(&self, f: &mut fmt::Formatter<W>) -> fmt::Result {
        write!(f, "there is no memory left: give the program more")
    }
}

impl Error for NoMemory {}

/// One nonce table that many threads share, each through a [`Seat`] of its own. The threads take turns at it, in
/// the order in which they ask, and all calls stand in one legal history.
#[derive(Drop)]
pub struct SharedNonces {
    table: Owned,
    share: u64,
    // How many threads sleep until a turn passes.
    asleep: AtomicU64,
}

impl Model for SharedNonces {
    ghost use Rattle.std.specs.Prelude.{◌≡◌};
    ghost use Rattle.usp_shared.specs.Seats.{Shared};

    ghost Value = { Shared };

    ghost view = { λ nonces. record {
      table = nonces.table.shared.table_id;
      room = nonces.table.shared.key.table.room;
      share = nonces.share;
    } };

    ghost invariant = { λ nonces. record {
      words : nonces.table.shared.table_id.words ≡ 3;
      slots : nonces.table.shared.table_id.slots ≡ 1;
      share : nonces.share ≡ nonces.table.shared.key.share;
    } };
}

impl SharedNonces {
    /// Shares a table that has met no call. Its one seat may make `share` calls.
    pub fn new(
        alloc: Global,
        table: NonceTable,
        share: u64,
    ) -> Result<(SharedNonces, Seat), (NonceTable, NoMemory)>
        requires fresh { StandsFor table [] }
        requires share { share < MAX_CALLS }
        ensures shared { IfOk result (λ made. (made.0.room ≡ table.room) × (made.0.share ≡ share)) }
        ensures seat { IfOk result (λ made.
            made.1 ≡ record { table = made.0.table; seen = []; places = []; left = share }) }
        ensures refused { IfErr result (λ refused. refused.0 ≡ table) }
    {
        match turn::open(alloc, table, share) {
            Ok((table, token)) => Ok((
                SharedNonces {
                    table,
                    share,
                    asleep: AtomicU64::new(0),
                },
                Seat {
                    token,
                    left: share,
                    used: 0,
                },
            )),
            Err(table) => Err((table, NoMemory)),
        }
    }

    /// How many calls may be made in all.
    pub fn share(&self) -> u64
        ensures { result ≡ self.now.share }
    {
        self.share
    }

    /// Gives so many of the calls that the seat has left to a new seat. It takes no memory.
    pub fn split(&self, seat: &mut Seat, share: u64) -> Result<Seat, NoMemory>
        requires table { seat.old.table ≡ self.now.table }
        requires left { share ≤ seat.old.left }
        ensures given { IfOk result (λ new. new ≡ record seat.old { places = []; left = share }) }
        ensures kept { seat.new ≡ record seat.old { left = seat.old.left - share } }
        ensures granted { IsOk result }
    {
        let token = turn::split::<Brand>(&self.table.shared, &mut seat.token, share);
        seat.left -= share;
        Ok(Seat {
            token,
            left: share,
            used: 0,
        })
    }

    /// Takes another seat back into this one.
    pub fn join(&self, seat: &mut Seat, other: Seat)
        requires table { seat.old.table ≡ self.now.table }
        requires other { other.table ≡ self.now.table }
        ensures seat { seat.new ≡ record {
          table = seat.old.table;
          seen = longer_of seat.old.seen other.seen;
          places = seat.old.places ++ other.places;
          left = seat.old.left + other.left;
        } }
        // Both have seen fronts of one history.
        ensures one_history { IsPrefix seat.old.seen seat.new.seen
            × IsPrefix other.seen seat.new.seen }
        // No place was a place of both.
        ensures apart { AreDistinctBelow (length seat.new.seen) seat.new.places }
    {
        let Seat { token, left, used } = other;
        turn::join(&self.table.shared, &mut seat.token, token);
        seat.left += left;
        seat.used += used;
    }

    /// Asks for a nonce. The call waits for the seat's turn, and promises what it says if it returns. It takes no
    /// memory.
    pub fn take<R: Wait>(&self, rt: &R, seat: &mut Seat, ask: NonceAsk) -> Turned
        requires table { seat.old.table ≡ self.now.table }
        requires left { 0 < seat.old.left }
        requires moment { ask.now < MOMENT_LIMIT }
        requires held { ask.until ≤ MAX_UNTIL }
        ensures entered { IsEntered seat.old.seen (call_of ask.key ask.now ask.until result)
            result.place seat.new.seen }
        ensures legal { IsLegal self.now.room seat.new.seen }
        ensures places { seat.new.places ≡ seat.old.places ++ result.place ∷ [] }
        ensures apart { AreDistinctBelow (length seat.new.seen) seat.new.places }
        ensures left { seat.new.left + 1 ≡ seat.old.left }
        ensures table { seat.new.table ≡ seat.old.table }
    {
        let turned = turn::take::<Brand, R>(
            rt,
            &self.table.shared,
            &self.asleep,
            &mut seat.token,
            ask,
        );
        seat.left -= 1;
        seat.used += 1;
        turned
    }

    /// Gives the nonce table back. The seat has the whole share, so all calls were made through it and through
    /// the seats joined into it.
    pub fn close(self, seat: Seat) -> NonceTable
        requires table { seat.table ≡ self.table }
        requires whole { seat.left + length seat.places ≡ self.share }
        ensures stands { StandsFor result seat.seen }
        ensures room { result.room ≡ self.room }
        ensures legal { IsLegal self.room seat.seen }
        ensures all { AreAllBelow (length seat.seen) seat.places }
        ensures counted { length seat.places ≡ length seat.seen }
    {
        let SharedNonces { table, .. } = self;
        turn::close(table, seat.token)
    }
}
