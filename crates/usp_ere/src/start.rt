//! Where a walk starts.
ghost use Rattle.std.specs.Prelude.{◌≡◌, ◌+◌, ◌<◌, ◌≤◌, ℕ, Option, false, length, slice_get};
ghost use Rattle.usp_ere.specs.Starts.{starts_at, IsPassedOver};

use crate::bytes::ByteSet;
use crate::course::Places;

/// Whether a walk starts at a place, before a byte or at the end.
#[inline(always)]
pub fn starts_at(places: &Places, at: usize, byte: Option<u8>) -> bool
    ensures { result ≡ starts_at places.now at byte }
{
    match places {
        Places::At(place) => at == *place,
        Places::Before(set) => match byte {
            Some(byte) => set.has(byte),
            None => false,
        },
        Places::Anywhere => true,
    }
}

/// The byte at a place, if one stands there.
#[inline(always)]
#[tactic(auto, using(std::proofs::lemmas::Option::slice_get_past, crate::proofs::WalkLemmas::byte_there))]
pub fn byte_at(text: &[u8], at: usize) -> Option<u8>
    ensures { result ≡ slice_get text.now at }
{
    if at < text.len() {
        Some(text[at])
    } else {
        None
    }
}

/// The first place from one on before whose byte a walk starts, or the place behind the end.
#[tactic(auto, using(crate::proofs::StartLemmas::before_rules))]
fn next_before(set: &ByteSet, text: &[u8], from: usize) -> usize
    requires { from ≤ length text.now + 1 }
    ensures order { (from ≤ result) × (result ≤ length text.now + 1) }
    ensures over { IsPassedOver (Places.Before set.now) text.now from result }
{
    let mut at = from;
    while at < text.len() {
        if set.has(text[at]) {
            return at;
        }
        at += 1;
    }
    text.len() + 1
}

/// The first place from one on at which a walk starts, or the place behind the end.
#[tactic(auto, using(crate::proofs::StartLemmas::start_rules))]
pub fn next_start(places: &Places, text: &[u8], from: usize) -> usize
    requires { from ≤ length text.now + 1 }
    ensures order { (from ≤ result) × (result ≤ length text.now + 1) }
    ensures over { IsPassedOver places.now text.now from result }
{
    match places {
        Places::At(place) => {
            if from <= *place {
                (*place).min(text.len() + 1)
            } else {
                text.len() + 1
            }
        }
        Places::Before(set) => next_before(set, text, from),
        Places::Anywhere => from,
    }
}
