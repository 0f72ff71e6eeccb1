//! A seat of a shared table.
ghost use Rattle.std.specs.Prelude.{◌≡◌, ◌+◌, length};
ghost use Rattle.usp_shared.specs.Places.{AreDistinctBelow};

use crate::rule::Token;
use std::marker::Model;

/// The right to make some calls of one shared table. It goes from thread to thread as it likes, and one thread
/// at a time makes calls through it.
#[derive(Drop)]
pub struct Seat {
    pub(crate) token: Token,
    pub(crate) left: u64,
    pub(crate) used: u64,
}

impl Model for Seat {
    ghost use Rattle.std.specs.Prelude.{◌≡◌, ◌+◌, ◌<◌, length};
    ghost use Rattle.usp_nonce.specs.declared.limits.TheConstants.{MAX_CALLS};
    ghost use Rattle.usp_shared.specs.Places.{AreDistinctBelow};
    ghost use Rattle.usp_shared.specs.Rule.{IsIdle};
    ghost use Rattle.usp_shared.specs.Seats.{Seated};

    ghost Value = { Seated };

    ghost view = { λ seat. record {
      table = seat.token.table_id;
      seen = seat.token.me.0.seen;
      places = seat.token.me.0.places;
      left = seat.left;
    } };

    ghost invariant = { λ seat. record {
      idle : IsIdle seat.token.me;
      left : seat.left ≡ seat.token.me.0.left;
      used : seat.used ≡ length seat.token.me.0.places;
      small : seat.left + seat.used < MAX_CALLS;
      apart : AreDistinctBelow (length seat.token.me.0.seen) seat.token.me.0.places;
    } };
}

impl Seat {
    /// How many calls it may still make.
    pub fn left(&self) -> u64
        ensures left { result ≡ self.now.left }
        // Its calls stand at places of the history that it has seen, no two at one place.
        ensures places { AreDistinctBelow (length self.now.seen) self.now.places }
    {
        self.left
    }

    /// How many calls it may make in all: those that are left, and those that were made through it and through
    /// the seats joined into it.
    pub fn share(&self) -> u64
        ensures { result ≡ self.now.left + length self.now.places }
    {
        self.left + self.used
    }
}
