//! A seat of a nonce table that threads share.
ghost use Rattle.std.specs.Prelude.{◌≡◌};
ghost use Rattle.usp_edge.specs.Seats.{SeatGains};

use crate::Nonces;
use std::sync::Wait;
use usp_nonce::{NonceKey, Turned};
use usp_shared::{NonceAsk, Seat, SharedNonces};

/// A seat beside the table that gave it. Each call waits for its turn by the handle, and promises what it says if
/// it returns.
#[derive(Drop)]
pub struct Seated<'a, R: Wait> {
    table: &'a SharedNonces,
    seat: Seat,
    rt: &'a R,
    ghost of_table: { seat.table ≡ table.now.table },
}

impl<'a, R: Wait> Seated<'a, R> {
    /// Puts a seat beside its table.
    pub fn new(table: &'a SharedNonces, seat: Seat, rt: &'a R) -> Seated<'a, R>
        requires { seat.table ≡ table.now.table }
        ensures { result.seat ≡ seat }
    {
        Seated { table, seat, rt }
    }

    /// The seat alone.
    pub fn into_seat(self) -> Seat
        ensures { result ≡ self.entry.seat }
    {
        self.seat
    }
}

impl<'a, R: Wait> Nonces for Seated<'a, R> {
    ghost use Rattle.usp_edge.specs.SeatLaws.{seat_gains_both, seat_gains_none};

    ghost gains = { λ a b calls. SeatGains a.seat b.seat calls };

    ghost calls_left = { λ a. a.seat.left };

    fn take(&mut self, key: NonceKey, now: u64, until: u64) -> Turned {
        let ask = NonceAsk { key, now, until };
        self.table.take(self.rt, &mut self.seat, ask)
    }

    fn left(&self) -> u64 {
        self.seat.left()
    }

    ghost gains_none = { λ a. seat_gains_none a.seat };

    ghost gains_both = { λ a b c x y first second. seat_gains_both a.seat b.seat c.seat x y first second };

    ghost gains_left = { λ a b x gains. gains.fallen };
}
