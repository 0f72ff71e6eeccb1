//! Which calls are made.
ghost use Rattle.std.specs.Prelude.{◌<◌, ◌≤◌, IfOk};

use crate::keys::{key_of, key_of_one_hash};
use std::alloc::Global;
use usp_nonce::{MAX_UNTIL, MOMENT_LIMIT, NoMemory, NonceKey};
use usp_shared::NonceAsk;

#[derive(Clone, Copy, PartialEq, Eq)]
pub enum Way {
    Distinct,
    Staggered,
    Repeated,
    Equal,
}

/// The way of the calls, and how many nonces are held meanwhile.
#[derive(Clone, Copy)]
pub struct Plan {
    pub way: Way,
    pub held: u64,
}

impl Plan {
    /// The call of a number, before which so many others came.
    pub fn ask(&self, alloc: Global, number: u64, before: u64) -> Result<NonceAsk, NoMemory>
        ensures { IfOk result (λ ask. (ask.now < MOMENT_LIMIT) × (ask.until ≤ MAX_UNTIL)) }
    {
        let held = self.held.max(1);
        match self.way {
            Way::Distinct => Ok(ask_at_rate(
                key_of(alloc, number)?,
                before,
                (held / 10).max(1),
                held,
            )),
            Way::Staggered => Ok(ask_at_rate(key_of(alloc, number)?, before, 1, held)),
            Way::Repeated => Ok(ask_at_one_moment(key_of(alloc, number % held)?)),
            Way::Equal => Ok(ask_at_one_moment(key_of_one_hash(alloc, number % held)?)),
        }
    }
}

// A call of which so many come a second, and whose nonce is held while so many come.
fn ask_at_rate(key: NonceKey, before: u64, rate: u64, held: u64) -> NonceAsk
    requires { 0 < rate }
    ensures { (result.now < MOMENT_LIMIT) × (result.until ≤ MAX_UNTIL) }
{
    let now = (before / rate).min(MOMENT_LIMIT - 1);
    let until = now.saturating_add(held / rate).min(MAX_UNTIL);
    NonceAsk { key, now, until }
}

// A call at one moment for all.
fn ask_at_one_moment(key: NonceKey) -> NonceAsk
    ensures { (result.now < MOMENT_LIMIT) × (result.until ≤ MAX_UNTIL) }
{
    NonceAsk {
        key,
        now: 0,
        until: 1,
    }
}
