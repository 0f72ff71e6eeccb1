//! The rule of the table that threads share. Word 0 counts the calls, word 1 gives tickets, word 2 is the ticket
//! served. The slot holds the nonce table, or nothing while a turn has it in hand.

use atomic_table::{Seat, Shared, Table, TableRule};
use std::alloc::Global;
use std::collections::LinkedList;
use std::marker::Model;
use usp_nonce::{Answer, NonceKey, NonceTable};

/// One call, as histories have it. No value of it is made.
pub struct Entry {
    key: NonceKey,
    now: u64,
    until: u64,
    moment: u64,
    answer: Answer,
}

impl Model for Entry {
    ghost use Rattle.usp_nonce.specs.History.{Call};

    ghost Value = { Call };

    ghost view = { λ entry. record {
      nonce = entry.key;
      now = entry.now;
      until = entry.until;
      moment = entry.moment;
      answer = entry.answer;
    } };
}

/// How far a seat is with a call.
pub enum Stage {
    /// It has no ticket.
    Idle,
    /// It has a ticket.
    Waits,
    /// Its ticket is served.
    HasTurn,
    /// Its ticket is served, and its call stands in the history.
    IsDone,
    /// It is the first, and the slot is still empty.
    Opens,
    /// It is the first, and has the empty slot in hand.
    Fills,
}

/// What a seat knows. No value of it is made.
pub struct View {
    /// The history, as far as the seat has seen it.
    pub seen: LinkedList<Entry>,
    /// What the shorter sighted of the two seats that were last made this one had seen. The next join replaces it.
    pub told: LinkedList<Entry>,
    /// Where the seat's calls stand in the history.
    pub places: LinkedList<u64>,
    /// How many calls it may still make.
    pub left: u64,
    pub ticket: u64,
    pub stage: Stage,
}

/// What a table is told once, when it is made.
pub struct Terms {
    /// How many calls may be made in all.
    pub share: u64,
    /// The nonce table, as it is before the first call.
    pub table: NonceTable,
}

/// The rule that holds between any two steps.
pub struct InTurn;

impl TableRule<Option<NonceTable>, View, Terms> for InTurn {
    ghost use Rattle.usp_shared.specs.Rule.{Holds, newcomer};

    ghost holds = { Holds };

    ghost first = { newcomer };
}

pub type Board = Shared<Option<NonceTable>, View, Terms, InTurn>;

pub type Owned = Table<Option<NonceTable>, View, Terms, InTurn, Global>;

pub type Token = Seat<Option<NonceTable>, View>;
