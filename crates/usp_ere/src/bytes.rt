//! Sets of bytes as bits, so that one test takes one step however a set is written.
ghost use Rattle.std.specs.Prelude.{◌≡◌, ◌≤◌, ◌<◌, ◌+◌, ◌==◌, ℕ, Bool};
ghost use Rattle.usp_ere.specs.Bits.{has_bit, IsFilled};
ghost use Rattle.usp_ere.specs.Sets.{between, class_holds, element_holds, elements_hold, set_holds};

use crate::class::{Class, Element};
use crate::set::{class_has, is_between};

/// A set of bytes, one bit each.
#[derive(Clone, Copy, Debug)]
pub struct ByteSet {
    pub first: u64,
    pub second: u64,
    pub third: u64,
    pub fourth: u64,
}

/// The word with its next bit.
#[tactic(auto, using(crate::proofs::ByteLemmas::filled_set, crate::proofs::ByteLemmas::filled_skip))]
fn filled(word: u64, bit: u8, on: bool) -> u64
    requires { bit < 64 }
    ensures { (test : ℕ → Bool) → IsFilled word bit test → test bit ≡ on → IsFilled result (bit + 1) test }
{
    if on { word | 1u64 << bit } else { word }
}

/// Which of the 64 bytes from one on are between two.
#[tactic(auto, using(crate::proofs::ByteLemmas::range_rules))]
fn range_word(first: u8, last: u8, from: u8) -> u64
    requires { from ≤ 192 }
    ensures { (k : ℕ) → k < 64 → has_bit result k ≡ between first last (from + k) }
{
    if last < from || from + 63 < first {
        return 0;
    }
    let mut word = 0u64;
    for bit in 0..64u8 {
        word = filled(word, bit, is_between(first, last, from + bit));
    }
    word
}

/// Which of the 64 bytes from one on are of the class.
fn class_word(class: Class, from: u8) -> u64
    requires { from ≤ 192 }
    ensures { (k : ℕ) → k < 64 → has_bit result k ≡ class_holds class (from + k) }
{
    let mut word = 0u64;
    for bit in 0..64u8 {
        word = filled(word, bit, class_has(class, from + bit));
    }
    word
}

#[tactic(auto, using(crate::proofs::ByteLemmas::one_between))]
fn element_word(element: Element, from: u8) -> u64
    requires { from ≤ 192 }
    ensures { (k : ℕ) → k < 64 → has_bit result k ≡ element_holds element (from + k) }
{
    match element {
        Element::One(only) => range_word(only, only, from),
        Element::Range(first, last) => range_word(first, last, from),
        Element::Named(class) => class_word(class, from),
    }
}

#[tactic(auto, using(crate::proofs::ByteLemmas::or_next))]
fn elements_word(elements: &[Element], from: u8) -> u64
    requires { from ≤ 192 }
    ensures { (k : ℕ) → k < 64 → has_bit result k ≡ elements_hold elements.now (from + k) }
{
    let mut word = 0u64;
    for element in elements {
        word |= element_word(*element, from);
    }
    word
}

/// Which of the 64 bytes from one on the set holds.
#[tactic(auto, using(crate::proofs::ByteLemmas::not_bits))]
fn word(negated: bool, elements: &[Element], from: u8) -> u64
    requires { from ≤ 192 }
    ensures { (k : ℕ) → k < 64 → has_bit result k ≡ set_holds negated elements.now (from + k) }
{
    let held = elements_word(elements, from);
    if negated { !held } else { held }
}

#[inline(always)]
fn has_bit(word: u64, bit: u8) -> bool
    requires { bit < 64 }
    ensures { result ≡ has_bit word bit }
{
    (word >> bit) & 1 == 1
}

impl ByteSet {
    ghost use Rattle.std.specs.Prelude.{◌≡◌, ◌<◌, ℕ, true};
    ghost use Rattle.usp_ere.specs.Bytes.{Holds, holds};

    /// The bytes of a set that is written so.
    pub fn of(negated: bool, elements: &[Element]) -> ByteSet
        ensures { Holds result negated elements.now }
    {
        ByteSet {
            first: word(negated, elements, 0),
            second: word(negated, elements, 64),
            third: word(negated, elements, 128),
            fourth: word(negated, elements, 192),
        }
    }

    /// No byte.
    pub fn none() -> ByteSet {
        ByteSet {
            first: 0,
            second: 0,
            third: 0,
            fourth: 0,
        }
    }

    /// Each byte.
    #[tactic(auto, using(crate::proofs::ByteLemmas::all_bits))]
    pub fn all() -> ByteSet
        ensures { (b : ℕ) → b < 256 → holds result b ≡ true }
    {
        ByteSet {
            first: u64::MAX,
            second: u64::MAX,
            third: u64::MAX,
            fourth: u64::MAX,
        }
    }

    /// One byte.
    pub fn one(byte: u8) -> ByteSet
        ensures { holds result byte ≡ true }
    {
        ByteSet {
            first: range_word(byte, byte, 0),
            second: range_word(byte, byte, 64),
            third: range_word(byte, byte, 128),
            fourth: range_word(byte, byte, 192),
        }
    }

    /// The bytes of both.
    #[tactic(auto, using(crate::proofs::ByteLemmas::or_first, crate::proofs::ByteLemmas::or_second))]
    pub fn or(self, other: ByteSet) -> ByteSet
        ensures first { (b : ℕ) → holds self b ≡ true → holds result b ≡ true }
        ensures second { (b : ℕ) → holds other b ≡ true → holds result b ≡ true }
    {
        ByteSet {
            first: self.first | other.first,
            second: self.second | other.second,
            third: self.third | other.third,
            fourth: self.fourth | other.fourth,
        }
    }

    #[inline(always)]
    pub fn has(&self, byte: u8) -> bool
        ensures { result ≡ holds self.now byte }
    {
        if byte < 64 {
            has_bit(self.first, byte)
        } else if byte < 128 {
            has_bit(self.second, byte - 64)
        } else if byte < 192 {
            has_bit(self.third, byte - 128)
        } else {
            has_bit(self.fourth, byte - 192)
        }
    }
}
