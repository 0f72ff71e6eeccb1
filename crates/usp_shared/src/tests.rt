//! Calls of a shared table, with their answers worked out by hand.
ghost use Rattle.std.specs.Prelude.{◌≡◌, ◌≤◌, IfOk};

use crate::{NoMemory, NonceAsk, Seat, SharedNonces};
use std::alloc::Global;
use std::process::Abort;
use std::sync::Wait;
use std::test::Fail;
use std::thread;
use usp_nonce::Answer::{Full, Late, Seen, Taken};
use usp_nonce::{Answer, NonceTable, Turned, nonce_key};

const URI: &[u8] = b"http://h/v";

fn turned(place: u64, moment: u64, answer: Answer) -> Turned {
    Turned {
        place,
        moment,
        answer,
    }
}

// A shared table of this room, with its first seat.
fn share(alloc: Global, room: u32, share: u32) -> Result<(SharedNonces, Seat), Fail>
    requires { (1 ≤ room) × (room ≤ 65536) }
    ensures { IfOk result (λ made. made.1.table ≡ made.0.table) }
{
    let table = NonceTable::with_room(alloc, room)?;
    Ok(SharedNonces::new(alloc, table, u64::from(share))?)
}

// Asks for the nonce of a `jti`.
fn ask<R: Wait + Abort>(
    rt: &R,
    alloc: Global,
    nonces: &SharedNonces,
    seat: &mut Seat,
    jti: &[u8],
    now: u32,
    until: u32,
) -> Turned
    requires { seat.old.table ≡ nonces.now.table }
    ensures { seat.new.table ≡ seat.old.table }
{
    let key = nonce_key(alloc, jti, URI).expect(rt, "memory for a nonce");
    assert!(rt; seat.left() > 0);
    let ask = NonceAsk {
        key,
        now: u64::from(now),
        until: u64::from(until),
    };
    nonces.take(rt, seat, ask)
}

// Asks so many times, and adds the places.
fn ask_often<R: Wait + Abort>(
    rt: &R,
    alloc: Global,
    nonces: &SharedNonces,
    seat: &mut Seat,
    places: &mut Vec<u64>,
    calls: u32,
)
    requires { seat.old.table ≡ nonces.now.table }
    ensures { seat.new.table ≡ seat.old.table }
{
    'calls: for now in 0..calls {
        let turned = ask(rt, alloc, nonces, seat, b"n", now, 2_000);
        places.push(turned.place).expect(rt, "memory for a place");
    }
}

// Asks once, and hands the seat back.
fn ask_once<R: Wait + Abort>(
    rt: &R,
    alloc: Global,
    nonces: &SharedNonces,
    mut seat: Seat,
) -> (Turned, Seat)
    requires { seat.table ≡ nonces.now.table }
    ensures { result.1.table ≡ nonces.now.table }
{
    let turned = ask(rt, alloc, nonces, &mut seat, b"n", 1_000, 2_000);
    (turned, seat)
}

// A seat beside its table, and the places of its calls.
#[derive(Drop)]
struct Caller<'a> {
    nonces: &'a SharedNonces,
    seat: Seat,
    places: Vec<u64>,
    ghost of_table: { seat.table ≡ nonces.now.table },
}

impl<'a> Caller<'a> {
    fn new(alloc: Global, nonces: &'a SharedNonces, seat: Seat) -> Caller<'a>
        requires { seat.table ≡ nonces.now.table }
    {
        Caller {
            nonces,
            seat,
            places: Vec::new(alloc),
        }
    }

    fn ask_often<R: Wait + Abort>(&mut self, rt: &R, alloc: Global, calls: u32) {
        ask_often(
            rt,
            alloc,
            self.nonces,
            &mut self.seat,
            &mut self.places,
            calls,
        );
    }
}

// Closes the table with the seat that has the whole share, and answers how many calls it met.
fn close<R: Abort>(rt: &R, nonces: SharedNonces, seat: Seat) -> NonceTable
    requires { seat.table ≡ nonces.table }
{
    assert_eq!(rt; seat.share(), nonces.share());
    nonces.close(seat)
}

#[test]
fn answers_as_the_table_of_one_thread(rt: HostRuntime) -> Result<(), Fail> {
    let alloc = rt.alloc();
    let (nonces, mut seat) = share(alloc, 1, 6)?;
    let late = ask(&rt, alloc, &nonces, &mut seat, b"n", 100, 100);
    let taken = ask(&rt, alloc, &nonces, &mut seat, b"n", 100, 200);
    let full = ask(&rt, alloc, &nonces, &mut seat, b"o", 150, 300);
    let seen = ask(&rt, alloc, &nonces, &mut seat, b"n", 199, 250);
    let freed = ask(&rt, alloc, &nonces, &mut seat, b"o", 200, 300);
    let over = ask(&rt, alloc, &nonces, &mut seat, b"n", 150, 199);
    assert_eq!(rt;
        [late, taken, full],
        [
            turned(0, 100, Late),
            turned(1, 100, Taken),
            turned(2, 150, Full)
        ]
    );
    assert_eq!(rt;
        [seen, freed, over],
        [
            turned(3, 199, Seen),
            turned(4, 200, Taken),
            turned(5, 200, Late)
        ]
    );
    let mut table = close(&rt, nonces, seat);
    assert_eq!(rt; table.calls(), 6);
    let next = table.take(nonce_key(alloc, b"n", URI)?, 150, 400);
    assert_eq!(rt; next, turned(6, 200, Full));
    Ok(())
}

#[test]
fn gives_a_share_away_and_takes_it_back(rt: HostRuntime) -> Result<(), Fail> {
    let alloc = rt.alloc();
    let (nonces, mut seat) = share(alloc, 8, 10)?;
    assert!(rt; seat.left() >= 4);
    let mut given = nonces.split(&mut seat, 4)?;
    assert_eq!(rt;
        (seat.left(), seat.share(), given.left(), given.share()),
        (6, 6, 4, 4)
    );
    let mut places = Vec::new(alloc);
    ask_often(&rt, alloc, &nonces, &mut seat, &mut places, 3);
    ask_often(&rt, alloc, &nonces, &mut given, &mut places, 2);
    assert_eq!(rt; places.as_slice(), [0, 1, 2, 3, 4].as_slice());
    assert_eq!(rt;
        (seat.left(), seat.share(), given.left(), given.share()),
        (3, 6, 2, 4)
    );
    nonces.join(&mut seat, given);
    assert_eq!(rt; (seat.left(), seat.share()), (5, 10));
    assert_eq!(rt; close(&rt, nonces, seat).calls(), 5);
    Ok(())
}

#[test]
fn one_of_two_threads_takes_a_nonce(rt: HostRuntime) -> Result<(), Fail> {
    let alloc = rt.alloc();
    let (nonces, mut seat) = share(alloc, 8, 2)?;
    assert!(rt; seat.left() >= 1);
    let given = nonces.split(&mut seat, 1)?;
    let shared = &nonces;
    let ((here, mut seat), (there, given)) = thread::join(
        &rt,
        || ask_once(&rt, alloc, shared, seat),
        || ask_once(&rt, alloc, shared, given),
    );
    let taken = turned(0, 1_000, Taken);
    let seen = turned(1, 1_000, Seen);
    assert!(rt; (here, there) == (taken, seen) || (here, there) == (seen, taken));
    nonces.join(&mut seat, given);
    assert_eq!(rt; close(&rt, nonces, seat).calls(), 2);
    Ok(())
}

// Each place below the number of calls was told once. Answers how many calls there were.
fn each_place_was_told_once(
    rt: &impl Abort,
    alloc: Global,
    callers: &[Caller],
) -> Result<usize, Fail> {
    let mut places = Vec::new(alloc);
    for caller in callers {
        places.extend_from_slice(&caller.places)?;
    }
    places.sort()?;
    for (i, place) in places.iter().enumerate() {
        assert_eq!(rt; *place, i as u64);
    }
    Ok(places.len())
}

#[test]
fn two_threads_make_thousands_of_calls(rt: HostRuntime) -> Result<(), Fail> {
    let alloc = rt.alloc();
    let (nonces, mut a) = share(alloc, 8, 6_000)?;
    assert!(rt; a.left() >= 3_000);
    let b = nonces.split(&mut a, 3_000)?;
    let mut callers = Vec::from_array(
        alloc,
        [
            Caller::new(alloc, &nonces, a),
            Caller::new(alloc, &nonces, b),
        ],
    )?;
    thread::for_each_mut(
        &rt,
        callers.as_mut_slice(),
        2,
        &|_, caller| { caller.ask_often(&rt, alloc, 3_000) },
    );
    assert_eq!(rt; each_place_was_told_once(&rt, alloc, &callers)?, 6_000);
    Ok(())
}

// More threads than processors: some sleep, and are woken.
#[test]
fn eight_threads_wake_each_other(rt: HostRuntime) -> Result<(), Fail> {
    let alloc = rt.alloc();
    let (nonces, mut a) = share(alloc, 8, 1_600)?;
    assert!(rt; a.left() >= 1_400);
    let b = nonces.split(&mut a, 200)?;
    let c = nonces.split(&mut a, 200)?;
    let d = nonces.split(&mut a, 200)?;
    let e = nonces.split(&mut a, 200)?;
    let f = nonces.split(&mut a, 200)?;
    let g = nonces.split(&mut a, 200)?;
    let h = nonces.split(&mut a, 200)?;
    let mut callers = Vec::from_array(
        alloc,
        [
            Caller::new(alloc, &nonces, a),
            Caller::new(alloc, &nonces, b),
            Caller::new(alloc, &nonces, c),
            Caller::new(alloc, &nonces, d),
            Caller::new(alloc, &nonces, e),
            Caller::new(alloc, &nonces, f),
            Caller::new(alloc, &nonces, g),
            Caller::new(alloc, &nonces, h),
        ],
    )?;
    thread::for_each_mut(
        &rt,
        callers.as_mut_slice(),
        8,
        &|_, caller| { caller.ask_often(&rt, alloc, 200) },
    );
    assert_eq!(rt; each_place_was_told_once(&rt, alloc, &callers)?, 1_600);
    Ok(())
}

#[test]
fn want_of_memory_says_what_to_mend(rt: HostRuntime) -> Result<(), Fail> {
    let alloc = rt.alloc();
    let text = NoMemory.to_string(alloc)?;
    assert_eq!(rt;
        text.as_str(),
        "there is no memory left: give the program more"
    );
    Ok(())
}

#[test]
fn thousands_of_calls_of_four_threads_have_a_place_each(rt: HostRuntime) -> Result<(), Fail> {
    let alloc = rt.alloc();
    let (nonces, mut a) = share(alloc, 8, 2_000)?;
    assert!(rt; a.left() >= 1_500);
    let b = nonces.split(&mut a, 500)?;
    let c = nonces.split(&mut a, 500)?;
    let d = nonces.split(&mut a, 500)?;
    let mut callers = Vec::from_array(
        alloc,
        [
            Caller::new(alloc, &nonces, a),
            Caller::new(alloc, &nonces, b),
            Caller::new(alloc, &nonces, c),
            Caller::new(alloc, &nonces, d),
        ],
    )?;
    thread::for_each_mut(
        &rt,
        callers.as_mut_slice(),
        4,
        &|_, caller| { caller.ask_often(&rt, alloc, 500) },
    );
    assert_eq!(rt; each_place_was_told_once(&rt, alloc, &callers)?, 2_000);
    Ok(())
}
