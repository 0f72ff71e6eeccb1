//! Calls of a nonce table, with their answers worked out by hand.
use crate::hash::hash_parts;
use crate::{Answer, MAX_ROOM, NoMemory, NonceTable, Turned, nonce_key};
use std::alloc::Global;
use std::process::Abort;
use std::test::Fail;

const URI: &[u8] = b"http://h/v";

// Takes a nonce of a table that has met few calls.
fn ask(
    rt: &impl Abort,
    alloc: Global,
    table: &mut NonceTable,
    nonce: (&[u8], &[u8]),
    now: u32,
    until: u32,
) -> Result<Turned, Fail> {
    let key = nonce_key(alloc, nonce.0, nonce.1)?;
    assert_eq!(rt; (key.jti(), key.uri()), nonce);
    assert!(rt; table.calls() < 1_000_000);
    Ok(table.take(key, u64::from(now), u64::from(until)))
}

#[test]
fn answers_in_the_order_of_the_rules(rt: HostRuntime) -> Result<(), Fail> {
    let mut table = NonceTable::with_room(rt.alloc(), 1)?;
    let calls = [
        (0, b"n", 100, 100, 100, Answer::Late),
        (1, b"n", 100, 200, 100, Answer::Taken),
        (2, b"o", 150, 300, 150, Answer::Full),
        (3, b"n", 199, 250, 199, Answer::Seen),
        (4, b"o", 200, 300, 200, Answer::Taken),
        (5, b"n", 150, 199, 200, Answer::Late),
        (6, b"n", 150, 400, 200, Answer::Full),
    ];
    for (place, jti, now, until, moment, answer) in calls {
        assert_eq!(rt; table.calls(), place);
        let turned = ask(&rt, rt.alloc(), &mut table, (jti, URI), now, until)?;
        assert_eq!(rt;
            turned,
            Turned {
                place,
                moment,
                answer
            },
            "at {place}"
        );
    }
    Ok(())
}

#[test]
fn a_clock_set_back_frees_no_nonce(rt: HostRuntime) -> Result<(), Fail> {
    let mut table = NonceTable::with_room(rt.alloc(), 2)?;
    let calls = [
        (b"n", 90, 96, Answer::Taken),
        (b"o", 100, 200, Answer::Taken),
        (b"n", 95, 99, Answer::Late),
    ];
    for (jti, now, until, answer) in calls {
        let turned = ask(&rt, rt.alloc(), &mut table, (jti, URI), now, until)?;
        assert_eq!(rt; turned.answer, answer);
    }
    Ok(())
}

#[test]
fn tells_nonces_apart_by_both_parts(rt: HostRuntime) -> Result<(), Fail> {
    let mut table = NonceTable::with_room(rt.alloc(), 4)?;
    let nonces = [
        (b"ab".as_slice(), b"c".as_slice(), Answer::Taken),
        (b"a", b"bc", Answer::Taken),
        (b"ab", b"d", Answer::Taken),
        (b"e", b"c", Answer::Taken),
        (b"ab", b"c", Answer::Seen),
    ];
    for (jti, uri, answer) in nonces {
        let turned = ask(&rt, rt.alloc(), &mut table, (jti, uri), 1, 2)?;
        assert_eq!(rt; turned.answer, answer);
    }
    Ok(())
}

#[test]
fn fills_the_largest_room(rt: HostRuntime) -> Result<(), Fail> {
    let mut table = NonceTable::with_room(rt.alloc(), MAX_ROOM)?;
    for i in 0..65_536u32 {
        let turned = ask(&rt, rt.alloc(), &mut table, (&i.to_le_bytes(), URI), 1, 100)?;
        assert_eq!(rt; turned.answer, Answer::Taken, "at {i}");
    }
    let full = ask(&rt, rt.alloc(), &mut table, (b"one more", URI), 99, 200)?;
    assert_eq!(rt; full.answer, Answer::Full);
    let taken = ask(&rt, rt.alloc(), &mut table, (b"one more", URI), 100, 200)?;
    assert_eq!(rt;
        taken,
        Turned {
            place: 65_537,
            moment: 100,
            answer: Answer::Taken
        }
    );
    Ok(())
}

#[test]
fn tells_nonces_of_one_hash_apart(rt: HostRuntime) -> Result<(), Fail> {
    // Each of these has the hash of each other, and so has each with the first byte of the URI moved to the `jti`.
    let same = [
        b"m0oe1lkh1fii",
        b"5aum35kh1fii",
        b"m0oe1lfklzzk",
        b"5aum35fklzzk",
    ];
    for jti in same {
        assert_eq!(rt; hash_parts(jti, URI), hash_parts(same[0], URI));
    }
    let mut table = NonceTable::with_room(rt.alloc(), 4)?;
    let calls = [
        (0, 1, 3, Answer::Taken),
        (1, 1, 2, Answer::Taken),
        (2, 1, 3, Answer::Taken),
        (0, 1, 2, Answer::Seen),
        (3, 1, 9, Answer::Taken),
        (1, 1, 3, Answer::Seen),
        (1, 2, 5, Answer::Taken),
        (2, 2, 4, Answer::Seen),
        (0, 3, 4, Answer::Taken),
        (3, 3, 4, Answer::Seen),
    ];
    for (which, now, until, answer) in calls {
        let jti: &[u8] = same[which as usize % 4];
        let turned = ask(&rt, rt.alloc(), &mut table, (jti, URI), now, until)?;
        assert_eq!(rt; turned.answer, answer);
    }
    Ok(())
}

#[test]
fn gives_back_each_key_that_it_does_not_keep(rt: HostRuntime) -> Result<(), Fail> {
    let mut table = NonceTable::with_room(rt.alloc(), 1)?;
    let calls = [
        (b"n", 100, Answer::Late),
        (b"n", 200, Answer::Taken),
        (b"n", 200, Answer::Seen),
        (b"o", 200, Answer::Full),
    ];
    for (jti, until, answer) in calls {
        let key = nonce_key(rt.alloc(), jti, URI)?;
        assert!(rt; table.calls() < 1_000_000);
        let (turned, returned) = table.take_or_return(key, 100, until);
        assert_eq!(rt; turned.answer, answer);
        let is_right = match &returned {
            Some(key) => key.jti() == jti.as_slice() && key.uri() == URI,
            None => answer == Answer::Taken,
        };
        assert!(rt; is_right);
    }
    Ok(())
}

// One call of a random history.
#[derive(Clone, Copy)]
struct Asked {
    nonce: u32,
    now: u32,
    until: u32,
}

// Random calls, the same in each run: for few nonces, with a clock that is set back at times.
#[derive(Drop)]
struct RandomCalls {
    state: u64,
    clock: u32,
}

impl RandomCalls {
    // A number below `bound`, or 0 where that is 0.
    fn below(&mut self, bound: u32) -> u32 {
        self.state = self
            .state
            .wrapping_mul(6_364_136_223_846_793_005)
            .wrapping_add(1_442_695_040_888_963_407);
        let number = (self.state >> 33) as u32;
        if bound == 0 { 0 } else { number % bound }
    }

    fn next_call(&mut self) -> Asked {
        let on = self.below(3).saturating_mul(self.below(4));
        self.clock = self.clock.saturating_add(on);
        let back = self.below(2).saturating_mul(self.below(6));
        let now = self.clock.saturating_sub(back);
        let until = now.saturating_add(self.below(20));
        let nonce = self.below(16);
        Asked { nonce, now, until }
    }
}

// A nonce table without an index: the calls that took their nonce, from which nothing is dropped.
#[derive(Drop)]
struct Plain {
    room: u32,
    moment: u32,
    taken: Vec<Asked>,
}

impl Plain {
    fn holds(&self, nonce: u32) -> bool {
        let moment = self.moment;
        self.taken
            .iter()
            .any(|call| call.nonce == nonce && call.until > moment)
    }

    fn held(&self) -> usize {
        let moment = self.moment;
        self.taken.iter().filter(|call| call.until > moment).count()
    }

    fn answer(&mut self, call: Asked) -> Result<Answer, Fail> {
        self.moment = self.moment.max(call.now);
        if call.until <= self.moment {
            return Ok(Answer::Late);
        }
        if self.holds(call.nonce) {
            return Ok(Answer::Seen);
        }
        if self.held() >= self.room as usize {
            return Ok(Answer::Full);
        }
        self.taken.push(call)?;
        Ok(Answer::Taken)
    }
}

// Follows a history of up to 100 calls, half of them for nonces that have one hash two by two. Answers how many
// nonces were taken.
fn follow_a_history(rt: &impl Abort, alloc: Global, seed: u32) -> Result<usize, Fail> {
    let fronts = [b"m0oe1l", b"5aum35"];
    let room = seed % 12 + 1;
    let mut table = NonceTable::with_room(alloc, room)?;
    let mut plain = Plain {
        room,
        moment: 0,
        taken: Vec::new(alloc),
    };
    let mut calls = RandomCalls {
        state: u64::from(seed),
        clock: 0,
    };
    for place in 0..calls.below(101) {
        let call = calls.next_call();
        let front = fronts[call.nonce as usize % 2];
        let jti = [
            front[0],
            front[1],
            front[2],
            front[3],
            front[4],
            front[5],
            (call.nonce % 16) as u8 / 2,
        ];
        let turned = ask(rt, alloc, &mut table, (&jti, URI), call.now, call.until)?;
        let answer = plain.answer(call)?;
        let (place, moment) = (u64::from(place), u64::from(plain.moment));
        assert_eq!(rt;
            turned,
            Turned {
                place,
                moment,
                answer
            }
        );
    }
    Ok(plain.taken.len())
}

#[test]
fn answers_as_a_plain_list_of_all_calls(rt: HostRuntime) -> Result<(), Fail> {
    let mut taken = 0usize;
    for seed in 0..1_000 {
        taken = taken.saturating_add(follow_a_history(&rt, rt.alloc(), seed)?);
    }
    assert!(rt; taken > 10_000, "{taken}");
    Ok(())
}

#[test]
fn says_what_to_mend(rt: HostRuntime) -> Result<(), Fail> {
    let text = format!(in rt.alloc(); "{NoMemory}")?;
    assert!(rt; text.as_str().contains("memory"));
    Ok(())
}
