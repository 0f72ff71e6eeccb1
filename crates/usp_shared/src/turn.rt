//! The steps of a turn, each of which changes one word of the table and the view of one seat.
ghost use Rattle.std.specs.Prelude.{◌≡◌, ◌+◌, ◌-◌, ◌<◌, ◌≤◌, ◌==◌, [], ◌∷◌, ◌++◌, length, MatchBool, IfOk, IfErr, IfSome, Some, None};
ghost use mathlib.Core.List.{IsPrefix};
ghost use Rattle.usp_nonce.specs.History.{IsLegal};
ghost use Rattle.usp_nonce.specs.Stands.{StandsFor, call_of};
ghost use Rattle.usp_shared.specs.Places.{AreAllBelow, AreDistinctBelow};
ghost use Rattle.usp_shared.specs.Rule.{Has, IsOf, IsIdle, IsHeld, IsCall, IsCompared, TakesTurn, kept_part, given_part, joined, first_view};
ghost use Rattle.usp_shared.specs.declared.rule.Stage.TheVariants.{Idle, Waits, HasTurn, IsDone, Opens, Fills};

use crate::plays::{
    Asked, Commits, Compares, Cuts, Draws, Empties, Entered, Joins, Looks, Part, Passes, Room,
};
use crate::rule::{Board, Owned, Terms, Token};
use crate::waiting::{Patience, give_way, wake_sleepers};
use atomic_table::Table;
use std::alloc::Global;
use std::hint::spin_loop;
use std::marker::Brand;
use std::sync::Wait;
use std::sync::atomic::AtomicU64;
use usp_nonce::{MAX_CALLS, MAX_UNTIL, MOMENT_LIMIT, NonceKey, NonceTable, Turned};

// The word that counts the calls.
const COUNT: usize = 0;
// The word that gives tickets.
const TICKET: usize = 1;
// The word that has the ticket served.
pub(crate) const SERVING: usize = 2;
// The slot of the nonce table.
const HOME: usize = 0;

/// What is asked of a shared nonce table: a nonce, to be held until a moment.
#[derive(Drop)]
pub struct NonceAsk {
    pub key: NonceKey,
    /// The moment of the call, in seconds since 1970.
    pub now: u64,
    /// The nonce may be taken again from this moment on, in seconds since 1970.
    pub until: u64,
}

// Draws a ticket.
fn draw(board: &Board, token: &mut Token) -> u64
    requires table { IsOf token.old.table_id board.now.table_id }
    requires idle { IsIdle token.old.me }
    requires left { 0 < token.old.me.0.left }
    ensures table { token.new.table_id ≡ token.old.table_id }
    ensures ticket { token.new.me ≡ (
      record token.old.me.0 {
        left = token.old.me.0.left - 1;
        ticket = result;
        stage = Waits;
      },
      [],
    ) }
{
    board.fetch_add::<Draws>(token, TICKET, 1)
}

// Looks whether the seat's ticket is served, and then takes the nonce table in hand.
fn look<E: Room>(board: &Board, token: &mut Token) -> u64
    requires room { E.room ≡ board.now.key.table.room }
    requires table { IsOf token.old.table_id board.now.table_id }
    requires waits { token.old.me.0.stage ≡ Waits }
    requires hand { token.old.me.1 ≡ [] }
    ensures table { token.new.table_id ≡ token.old.table_id }
    ensures found { MatchBool (result == token.old.me.0.ticket)
        (TakesTurn board.now.key.table.room token.old.me token.new.me)
        (token.new.me ≡ token.old.me) }
{
    board.load::<Looks<E>>(token, SERVING)
}

// Enters the call in the history, and answers its place.
fn commit<E: Entered>(board: &Board, token: &mut Token, now: u64, until: u64, turned: Turned) -> u64
    requires call { (E.call.now ≡ now) × (E.call.until ≡ until)
        × (E.call.moment ≡ turned.moment) × (E.call.answer ≡ turned.answer) }
    requires table { IsOf token.old.table_id board.now.table_id }
    requires turn { token.old.me.0.stage ≡ HasTurn }
    requires legal { IsLegal board.now.key.table.room (token.old.me.0.seen ++ E.call ∷ []) }
    ensures table { token.new.table_id ≡ token.old.table_id }
    ensures place { result ≡ length token.old.me.0.seen }
    ensures view { token.new.me ≡ (
      record token.old.me.0 {
        seen = token.old.me.0.seen ++ E.call ∷ [];
        places = token.old.me.0.places ++ result ∷ [];
        stage = IsDone;
      },
      token.old.me.1,
    ) }
{
    board.fetch_add::<Commits<E>>(token, COUNT, 1)
}

// Passes the turn on, with the nonce table at home.
fn pass(board: &Board, token: &mut Token)
    requires table { IsOf token.old.table_id board.now.table_id }
    requires done { token.old.me.0.stage ≡ IsDone }
    requires held { IsHeld board.now.key.table.room token.old.me }
    ensures table { token.new.table_id ≡ token.old.table_id }
    ensures view { token.new.me ≡ (record token.old.me.0 { stage = Idle }, []) }
{
    board.fetch_add::<Passes>(token, SERVING, 1);
}

// Makes the call with the nonce table in hand, and passes the turn on. A key that the table refused comes back, so
// that its memory is let go after the turn.
fn call_in_turn<A: Asked>(
    board: &Board,
    token: &mut Token,
    ask: NonceAsk,
) -> (Turned, Option<NonceKey>)
    requires nonce { ask.key ≡ A.nonce }
    requires moment { (ask.now < MOMENT_LIMIT) × (ask.until ≤ MAX_UNTIL) }
    requires table { IsOf token.old.table_id board.now.table_id }
    requires turn { token.old.me.0.stage ≡ HasTurn }
    requires held { IsHeld board.now.key.table.room token.old.me }
    requires legal { IsLegal board.now.key.table.room token.old.me.0.seen }
    requires small { length token.old.me.0.seen < MAX_CALLS }
    ensures table { token.new.table_id ≡ token.old.table_id }
    ensures place { result.0.place ≡ length token.old.me.0.seen }
    ensures legal { IsLegal board.now.key.table.room
        (token.old.me.0.seen ++ call_of A.nonce ask.now ask.until result.0 ∷ []) }
    ensures view { token.new.me ≡ (
      record token.old.me.0 {
        seen = token.old.me.0.seen ++ call_of A.nonce ask.now ask.until result.0 ∷ [];
        places = token.old.me.0.places ++ result.0.place ∷ [];
        stage = Idle;
      },
      [],
    ) }
{
    let NonceAsk { key, now, until } = ask;
    let Some(mut table) = board.exchange(token, HOME, None) else {
        unreachable!()
    };
    let (turned, returned) = table.take_or_return(key, now, until);
    let place = commit::<Brand>(board, token, now, until, turned);
    let _ = board.exchange(token, HOME, Some(table));
    pass(board, token);
    (Turned { place, ..turned }, returned)
}

// Makes the call once the seat's turn has come. `asleep` counts the seats that sleep.
pub(crate) fn take<A: Asked, R: Wait>(
    rt: &R,
    board: &Board,
    asleep: &AtomicU64,
    token: &mut Token,
    ask: NonceAsk,
) -> Turned
    requires nonce { ask.key ≡ A.nonce }
    requires moment { (ask.now < MOMENT_LIMIT) × (ask.until ≤ MAX_UNTIL) }
    requires table { IsOf token.old.table_id board.now.table_id }
    requires idle { IsIdle token.old.me }
    requires left { 0 < token.old.me.0.left }
    ensures table { token.new.table_id ≡ token.old.table_id }
    ensures call { IsCall board.now.key.table.room token.old.me
        (call_of A.nonce ask.now ask.until result) result.place token.new.me }
{
    let ticket = draw(board, token);
    let mut patience = Patience::new();
    for _ in rt.forever() {
        let serving = look::<Brand>(board, token);
        if serving == ticket {
            let (turned, _returned) = call_in_turn::<A>(board, token, ask);
            wake_sleepers(board, asleep);
            return turned;
        }
        if patience.is_at_its_end(serving) {
            give_way(rt, board, asleep, ticket.wrapping_sub(serving), serving);
        } else {
            spin_loop();
        }
    }
    unreachable!()
}

// Gives the new seat so many of the calls that are left. It has seen as much.
pub(crate) fn split<E: Part>(board: &Board, token: &mut Token, share: u64) -> Token
    requires share { E.part ≡ share }
    requires table { IsOf token.old.table_id board.now.table_id }
    requires idle { IsIdle token.old.me }
    requires left { share ≤ token.old.me.0.left }
    ensures table { (token.new.table_id ≡ token.old.table_id)
        × (result.table_id ≡ token.old.table_id) }
    ensures kept { token.new.me ≡ (kept_part share token.old.me.0, []) }
    ensures given { result.me ≡ (given_part share token.old.me.0, []) }
{
    board.split_seat::<Cuts<E>>(token)
}

// Takes in what the other seat has left and where its calls stand.
fn merge(board: &Board, token: &mut Token, other: Token)
    requires table { IsOf token.old.table_id board.now.table_id }
    requires other { other.table_id ≡ board.now.table_id }
    requires idle { IsIdle token.old.me }
    requires other_idle { IsIdle other.me }
    ensures table { token.new.table_id ≡ token.old.table_id }
    ensures view { token.new.me ≡ (joined token.old.me.0 other.me.0, []) }
{
    board.join_seat::<Joins>(token, other);
}

// Compares what a joined seat was told with what it has seen.
fn compare(board: &Board, token: &mut Token)
    requires table { IsOf token.old.table_id board.now.table_id }
    requires idle { IsIdle token.old.me }
    requires short { length token.old.me.0.told ≤ length token.old.me.0.seen }
    ensures table { token.new.table_id ≡ token.old.table_id }
    ensures found { IsCompared token.old.me token.new.me }
{
    board.load::<Compares>(token, COUNT);
}

// Takes in what the other seat has left and where its calls stand, and learns that both have seen one history.
pub(crate) fn join(board: &Board, token: &mut Token, other: Token)
    requires table { IsOf token.old.table_id board.now.table_id }
    requires other { other.table_id ≡ board.now.table_id }
    requires idle { IsIdle token.old.me }
    requires other_idle { IsIdle other.me }
    ensures table { token.new.table_id ≡ token.old.table_id }
    ensures view { token.new.me ≡ (joined token.old.me.0 other.me.0, []) }
    ensures one_history { IsPrefix token.old.me.0.seen token.new.me.0.seen
        × IsPrefix other.me.0.seen token.new.me.0.seen }
    ensures apart { AreDistinctBelow (length token.new.me.0.seen) token.new.me.0.places }
    ensures small { token.new.me.0.left + length token.new.me.0.places < MAX_CALLS }
{
    merge(board, token, other);
    compare(board, token);
}

// Takes the empty slot of a new table in hand.
fn take_slot(board: &Board, token: &mut Token)
    requires table { IsOf token.old.table_id board.now.table_id }
    requires opens { token.old.me ≡ (first_view board.now.key Opens, []) }
    ensures table { token.new.table_id ≡ token.old.table_id }
    ensures view { token.new.me ≡ (first_view board.now.key Fills, (0, None) ∷ []) }
{
    board.load::<Empties>(token, COUNT);
}

// Gives the slot back, with the nonce table in it.
fn fill_slot(board: &Board, token: &mut Token)
    requires table { IsOf token.old.table_id board.now.table_id }
    requires fills { token.old.me
        ≡ (first_view board.now.key Fills, (0, Some board.now.key.table) ∷ []) }
    requires fresh { StandsFor board.now.key.table [] }
    ensures table { token.new.table_id ≡ token.old.table_id }
    ensures view { token.new.me ≡ (first_view board.now.key Idle, []) }
{
    board.load::<Passes>(token, COUNT);
}

// A table that holds no nonce table yet, with its first seat.
fn empty_table(alloc: Global, terms: &Terms) -> Option<(Owned, Token)>
    requires share { terms.now.share < MAX_CALLS }
    ensures key { IfSome result (λ made. made.0.shared.key ≡ terms.now) }
    ensures table { IfSome result (λ made. IsOf made.1.table_id made.0.shared.table_id) }
    ensures view { IfSome result (λ made. made.1.me ≡ (first_view terms.now Opens, [])) }
{
    Table::vacant(alloc, &[0, 0, 0], 1, terms).ok()
}

// Shares a nonce table that has met no call, and gives it back where there is no memory.
pub(crate) fn open(
    alloc: Global,
    table: NonceTable,
    share: u64,
) -> Result<(Owned, Token), NonceTable>
    requires fresh { StandsFor table [] }
    requires share { share < MAX_CALLS }
    ensures key { IfOk result (λ made.
        made.0.shared.key ≡ record { share = share; table = table }) }
    ensures table { IfOk result (λ made. IsOf made.1.table_id made.0.shared.table_id) }
    ensures view { IfOk result (λ made.
        made.1.me ≡ (first_view record { share = share; table = table } Idle, [])) }
    ensures refused { IfErr result (λ refused. refused ≡ table) }
{
    let terms = Terms { share, table };
    let made = empty_table(alloc, &terms);
    let Terms { table, share: _ } = terms;
    match made {
        Some((owned, mut token)) => {
            take_slot(&owned.shared, &mut token);
            let _ = owned.shared.exchange(&mut token, HOME, Some(table));
            fill_slot(&owned.shared, &mut token);
            Ok((owned, token))
        }
        None => Err(table),
    }
}

// Takes the nonce table out for the seat that has the whole share.
pub(crate) fn close(table: Owned, token: Token) -> NonceTable
    requires table { IsOf token.table_id table.shared.table_id }
    requires idle { IsIdle token.me }
    requires whole { token.me.0.left + length token.me.0.places ≡ table.shared.key.share }
    ensures has { Has table.shared.key.table.room result token.me.0.seen }
    ensures legal { IsLegal table.shared.key.table.room token.me.0.seen }
    ensures all { AreAllBelow (length token.me.0.seen) token.me.0.places }
    ensures counted { length token.me.0.places ≡ length token.me.0.seen }
{
    let mut closed = table.close_with(token);
    let slot = closed.take(HOME);
    closed.free();
    match slot {
        Some(table) => table,
        None => unreachable!(),
    }
}
