//! What each step tells its seat.
ghost use Rattle.std.specs.Prelude.{ℕ, []};
ghost use Rattle.usp_nonce.specs.History.{Call};
ghost use Rattle.usp_nonce.specs.Nonces.{Nonce};
ghost use Rattle.usp_shared.specs.Rule.{
  emptied,
  drawn,
  looked,
  committed,
  passed,
  compared,
  kept_part,
  given_part,
  joined,
  spent,
};
ghost use Rattle.usp_nonce.specs.declared.answer.Answer.TheVariants.{Late};

use crate::rule::View;
use atomic_table::{Join, Play, Split};
use std::marker::{Brand, PhantomData};
use usp_nonce::NonceTable;

/// The room of the nonce table. Each look picks it.
pub trait Room {
    ghost room: { ℕ };
}

impl Room for Brand {
    ghost room = { 0 };
}

/// The nonce that a turn asks for. Each turn picks it.
pub trait Asked {
    ghost nonce: { Nonce };
}

impl Asked for Brand {
    ghost nonce = { record { jti = []; uri = [] } };
}

/// The call that a commit enters. Each commit picks it.
pub trait Entered {
    ghost call: { Call };
}

impl Entered for Brand {
    ghost call = { record {
      nonce = record { jti = []; uri = [] };
      now = 0;
      until = 0;
      moment = 0;
      answer = Late;
    } };
}

/// The share that is given away. Each split picks it.
pub trait Part {
    ghost part: { ℕ };
}

impl Part for Brand {
    ghost part = { 0 };
}

/// The first seat takes the empty slot.
pub struct Empties;

impl Play<Option<NonceTable>, View> for Empties {
    ghost then = { emptied };
}

/// A ticket is drawn.
pub struct Draws;

impl Play<Option<NonceTable>, View> for Draws {
    ghost then = { drawn };
}

/// A seat looks whether its ticket is served.
pub struct Looks<E> {
    of: PhantomData<E>,
}

impl<E: Room> Play<Option<NonceTable>, View> for Looks<E> {
    ghost then = { looked E.room };
}

/// A call is entered in the history.
pub struct Commits<E> {
    of: PhantomData<E>,
}

impl<E: Entered> Play<Option<NonceTable>, View> for Commits<E> {
    ghost then = { committed E.call };
}

/// The slot is given back, and with it the turn.
pub struct Passes;

impl Play<Option<NonceTable>, View> for Passes {
    ghost then = { passed };
}

/// What a joined seat was told is compared with what it has seen.
pub struct Compares;

impl Play<Option<NonceTable>, View> for Compares {
    ghost then = { compared };
}

/// A share is given away.
pub struct Cuts<E> {
    of: PhantomData<E>,
}

impl<E: Part> Split<View> for Cuts<E> {
    ghost left = { kept_part E.part };

    ghost right = { given_part E.part };
}

/// Two seats are made one.
pub struct Joins;

impl Join<View> for Joins {
    ghost both = { joined };

    ghost spent = { spent };
}
