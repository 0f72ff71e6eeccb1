//! The nonce table of one thread.
ghost use Rattle.std.specs.Prelude.{◌≡◌, ◌<◌, ◌≤◌, ◌+◌, List, [], ◌∷◌, ◌++◌, IfOk, length, if◌then◌else◌, Some, None, ◌-◌, ◌&&◌, slice_get};
ghost use Rattle.std.specs.List.{list_any};
ghost use Rattle.usp_nonce.specs.History.{Call, IsLegal, IsNext, is_taken};
ghost use Rattle.usp_nonce.specs.Nonces.{is_same_nonce};
ghost use Rattle.usp_nonce.specs.Steps.{IsAnswered, table_after, table_answer, table_at, table_with};
ghost use Rattle.usp_nonce.specs.Hash.{hashes_of};
ghost use Rattle.usp_nonce.specs.Table.{Holding, is_above};
ghost use Rattle.usp_nonce.specs.Stands.{StandsFor, call_of};

use crate::answer::{Answer, Turned};
use crate::cleaning::make_room;
use crate::index::Index;
use crate::key::{NoMemory, NonceKey};
use crate::limits::{MAX_CALLS, MAX_ROOM, MAX_UNTIL, MOMENT_LIMIT};
use crate::row::Row;
use crate::untils::Untils;
use std::alloc::Global;
use std::marker::Model;

/// A table of fixed room that answers whether a nonce may be used. Each call that it answers is one
/// entry of a history, of which the table keeps what later answers need.
#[derive(Drop, Debug)]
pub struct NonceTable {
    room: u32,
    calls: u64,
    moment: u64,
    // The rows in the order of taking. Those that are over stay in it until it is full.
    rows: Vec<Row>,
    // Where the rows of a hash stand in it.
    index: Index,
    // The ends of the rows that are held.
    untils: Untils,
}

impl Model for NonceTable {
    ghost use Rattle.std.specs.Prelude.{◌≡◌, ◌≤◌, ◌<◌, filter, length, vec_len};
    ghost use Rattle.usp_nonce.specs.Counted.{IsCounted};
    ghost use Rattle.usp_nonce.specs.Hash.{hashes_of};
    ghost use Rattle.std.specs.Vec.{vec_capacity};
    ghost use Rattle.usp_nonce.specs.Table.{Table, is_above};

    ghost Value = { Table };

    ghost view = { λ table. record {
      room = table.room;
      calls = table.calls;
      moment = table.moment;
      rows = filter (is_above table.moment) table.rows.items;
    } };

    ghost invariant = { λ table. record {
      reserved : table.index.room ≤ vec_capacity table.rows;
      more : table.room < table.index.room;
      listed : vec_len table.rows ≤ table.index.room;
      indexed : table.index.hashes ≡ hashes_of table.rows.items;
      untils_room : table.untils.room ≡ table.room;
      counted : IsCounted table.moment table.untils.list table.rows.items;
      within : length table.untils.list ≤ table.room;
    } };
}

impl NonceTable {
    /// A table that holds up to `room` nonces at once. It takes the memory of all its rows here: some 98
    /// bytes for each, beside that of the keys.
    pub fn with_room(alloc: Global, room: u32) -> Result<NonceTable, NoMemory>
        requires some { 1 ≤ room }
        requires bounded { room ≤ MAX_ROOM }
        ensures empty { IfOk result (λ table. StandsFor table []) }
        ensures room { IfOk result (λ table. table.room ≡ room) }
    {
        // A list that is an eighth longer is cleaned once in so many takes.
        let rows = room + room / 8 + 1;
        Ok(NonceTable {
            room,
            calls: 0,
            moment: 0,
            rows: Vec::with_capacity(alloc, rows as usize)?,
            index: Index::with_room(alloc, rows)?,
            untils: Untils::with_room(alloc, room)?,
        })
    }

    /// Asks for the nonce at `now`, to be held until `until`, both in seconds since 1970. It takes no
    /// memory: a nonce that is taken keeps that of its key.
    pub fn take(&mut self, key: NonceKey, now: u64, until: u64) -> Turned
        requires moment { now < MOMENT_LIMIT }
        requires held { until ≤ MAX_UNTIL }
        requires counted { self.old.calls < MAX_CALLS }
        // The answer is the one that goes on with each history that the table stands for.
        ensures next { (history : List Call) → StandsFor self.old history
            → IsNext self.old.room history (call_of key now until result) }
        ensures legal { (history : List Call) → StandsFor self.old history
            → IsLegal self.old.room history
            → IsLegal self.old.room (history ++ call_of key now until result ∷ []) }
        ensures stands { (history : List Call) → StandsFor self.old history
            → StandsFor self.new (history ++ call_of key now until result ∷ []) }
        ensures place { result.place ≡ self.old.calls }
        ensures calls { self.new.calls ≡ self.old.calls + 1 }
        ensures room { self.new.room ≡ self.old.room }
    {
        let (turned, _) = self.take_or_return(key, now, until);
        turned
    }

    /// Asks in the same way, and gives a key back that the table does not keep, so that its memory can be let go
    /// elsewhere.
    pub fn take_or_return(
        &mut self,
        key: NonceKey,
        now: u64,
        until: u64,
    ) -> (Turned, Option<NonceKey>)
        requires moment { now < MOMENT_LIMIT }
        requires held { until ≤ MAX_UNTIL }
        requires counted { self.old.calls < MAX_CALLS }
        ensures answered { IsAnswered self.old key now until result.0 self.new }
        ensures returned { result.1 ≡ (if is_taken result.0.answer then None else Some key) }
    {
        let place = self.calls();
        self.advance(now);
        let moment = self.moment();
        let (answer, returned) = self.admit(key, until);
        let turned = Turned {
            place,
            moment,
            answer,
        };
        (turned, returned)
    }

    fn moment(&self) -> u64
        ensures { result ≡ self.now.moment }
    {
        self.moment
    }

    // Counts a call, moves on to its moment, and takes out the ends up to it.
    fn advance(&mut self, now: u64)
        requires { self.old.calls < MAX_CALLS }
        ensures { self.new ≡ table_at self.old now }
    {
        self.calls += 1;
        if self.moment < now {
            self.moment = now;
            self.untils.let_go(now);
        }
    }

    // Answers a call at the table's moment, and holds the nonce where it is taken.
    fn admit(&mut self, key: NonceKey, until: u64) -> (Answer, Option<NonceKey>)
        ensures answer { result.0 ≡ table_answer self.old key until }
        ensures held { self.new ≡ table_after self.old key until result.0 }
        ensures returned { result.1 ≡ (if is_taken result.0 then None else Some key) }
    {
        let answer = self.answer_to(&key, until);
        if answer == Answer::Taken {
            self.hold(key, until);
            (answer, None)
        } else {
            (answer, Some(key))
        }
    }

    // The answer to a call at the table's moment.
    fn answer_to(&self, key: &NonceKey, until: u64) -> Answer
        ensures { result ≡ table_answer self.now key.now until }
    {
        if until <= self.moment {
            Answer::Late
        } else if self.holds(key) {
            Answer::Seen
        } else if self.untils.len() >= self.room as usize {
            Answer::Full
        } else {
            Answer::Taken
        }
    }

    fn holds(&self, key: &NonceKey) -> bool
        ensures { result ≡ list_any (λ row. is_same_nonce key.now row.nonce) self.now.rows }
    {
        let mut number = self.index.first(key.hash());
        while number != 0 {
            if is_held_at(&self.rows, &self.index, number, key, self.moment) {
                return true;
            }
            number = self.index.behind(number);
        }
        false
    }

    // Holds the nonce until then.
    fn hold(&mut self, key: NonceKey, until: u64)
        requires room { length self.old.rows < self.old.room }
        requires later { self.old.moment < until }
        ensures { self.new ≡ table_with self.old key until }
    {
        make_room(&mut self.rows, &mut self.index, self.moment);
        self.untils.push(until);
        self.index.push(key.hash());
        self.rows.push(Row::of(key, until)).unwrap();
    }

    /// How many calls of `take` were made.
    pub fn calls(&self) -> u64
        ensures { result ≡ self.now.calls }
    {
        self.calls
    }
}

// Whether the row of a number is of the nonce, and is held beyond the moment. A row of another hash is not
// looked at.
fn is_held_at(rows: &[Row], index: &Index, number: u32, key: &NonceKey, moment: u64) -> bool
    requires some { 0 < number }
    requires within { number ≤ length rows.now }
    requires indexed { index.now.hashes ≡ hashes_of rows.now }
    ensures { (row : Holding) → slice_get rows.now (number - 1) ≡ Some row
        → result ≡ (is_same_nonce key.now row.nonce && is_above moment row) }
{
    if index.hash_at(number) != key.hash() {
        return false;
    }
    rows[number as usize - 1].is_held(key, moment)
}
