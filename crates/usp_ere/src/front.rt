//! With which bytes the texts of an expression begin.
ghost use Rattle.std.specs.Prelude.{◌≡◌, ◌||◌, ◌<◌, ℕ, Bool, List, Option, true};
ghost use Rattle.usp_ere.specs.Bytes.{holds, Holds};
ghost use Rattle.usp_ere.specs.Expression.{Expr, byte, any, set, both, either, repeat};
ghost use Rattle.usp_ere.specs.Plans.{IsFront};
ghost use Rattle.usp_ere.specs.declared.class.Element.{Element};
ghost use Rattle.usp_ere.specs.Shape.{expr_of};

use crate::bytes::ByteSet;
use crate::tree::Tree;

/// Whether a text may be empty, and the bytes with which another may begin.
#[derive(Clone, Copy, Debug)]
pub struct Front {
    pub empty: bool,
    pub bytes: ByteSet,
}

/// Whether one of two holds.
fn one_holds(first: bool, second: bool) -> bool
    ensures { result ≡ (first || second) }
{
    first || second
}

impl Front {
    /// A text that is empty.
    fn nothing() -> Front
        ensures { result.empty ≡ true }
    {
        Front {
            empty: true,
            bytes: ByteSet::none(),
        }
    }

    /// A text that is one byte of a set.
    fn of(bytes: ByteSet) -> Front
        ensures one { (c : ℕ) → holds bytes c ≡ true → IsFront result.empty result.bytes (byte c) }
        ensures each { ((b : ℕ) → b < 256 → holds bytes b ≡ true) → IsFront result.empty result.bytes any }
        ensures some { (negated : Bool) (elements : List Element) → Holds bytes negated elements
            → IsFront result.empty result.bytes (set negated elements) }
    {
        Front {
            empty: false,
            bytes,
        }
    }

    /// One text behind the other.
    #[tactic(auto, using(crate::proofs::PlanLemmas::front_first))]
    fn then(self, second: Front) -> Front
        ensures { (x y : Expr) → IsFront self.empty self.bytes x → IsFront second.empty second.bytes y
            → IsFront result.empty result.bytes (both x y) }
    {
        if !self.empty {
            return self;
        }
        Front {
            empty: second.empty,
            bytes: self.bytes.or(second.bytes),
        }
    }

    /// One text or the other.
    fn or(self, second: Front) -> Front
        ensures { (x y : Expr) → IsFront self.empty self.bytes x → IsFront second.empty second.bytes y
            → IsFront result.empty result.bytes (either x y) }
    {
        Front {
            empty: one_holds(self.empty, second.empty),
            bytes: self.bytes.or(second.bytes),
        }
    }

    /// Some texts, one behind the other, or none where the least count is 0.
    fn repeated(self, least: u8) -> Front
        ensures { (x : Expr) (most : Option ℕ) → IsFront self.empty self.bytes x
            → IsFront result.empty result.bytes (repeat x least most) }
    {
        Front {
            empty: one_holds(self.empty, least == 0),
            bytes: self.bytes,
        }
    }
}

/// With what the texts of an expression may begin.
#[cycle(front)]
#[tactic(auto, using(crate::proofs::PlanLemmas::front_begin, crate::proofs::PlanLemmas::front_end))]
pub fn front_of(tree: &Tree) -> Front
    ensures { IsFront result.empty result.bytes (expr_of tree.now) }
{
    match tree {
        Tree::Byte(byte) => Front::of(ByteSet::one(*byte)),
        Tree::Any => Front::of(ByteSet::all()),
        Tree::OneOf(set) => Front::of(set.bytes),
        Tree::Begin => Front::nothing(),
        Tree::End => Front::nothing(),
        Tree::Both(x, y) => front_of(x).then(front_of(y)),
        Tree::Either(x, y) => front_of(x).or(front_of(y)),
        Tree::Repeat(x, least, _) => front_of(x).repeated(*least),
    }
}
