//! A node that stands alone at a place is followed without a set.
ghost use Rattle.std.specs.Prelude.{◌≡◌, ◌+◌, ◌<◌, ◌≤◌, [], ◌∷◌, ℕ, length, Some, IfSome, IfNone};
ghost use Rattle.usp_ere.specs.Alone.{takes, listed, IsBehind, IsInside, IsNext, IsPaid};
ghost use Rattle.usp_ere.specs.NodeSets.{with_all};
ghost use Rattle.usp_ere.specs.Walk.{goes, IsBegun, IsCourse, IsOn, Spends};

use crate::course::Course;
use crate::nodes::Node;
use crate::start::{byte_at, starts_at};
use std::sync::ledger::Ledger;
use usp_base::Steps;

/// What comes behind a node that stands alone.
#[derive(Clone, Copy)]
pub enum Behind {
    Nothing,
    One(u16),
    /// More nodes than one, or what only a set tells.
    More,
}

/// A place, and the node that stands alone there, if one does.
#[derive(Clone, Copy)]
pub struct Stop {
    pub at: usize,
    pub node: Option<u16>,
}

/// Whether the node takes a byte.
#[inline(always)]
fn takes(node: Node) -> bool
    ensures { result ≡ takes node }
{
    match node {
        Node::Byte(_, _) => true,
        Node::Any(_) => true,
        Node::OneOf(_, _) => true,
        _ => false,
    }
}

/// The node behind one, where it takes the byte.
#[inline(always)]
fn target(node: Node, byte: u8) -> Option<u16>
    ensures { listed result ≡ goes node (Some byte) }
{
    match node {
        Node::Byte(only, to) => { if byte == only { Some(to) } else { None } }
        Node::Any(to) => Some(to),
        Node::OneOf(set, to) => { if set.has(byte) { Some(to) } else { None } }
        _ => None,
    }
}

/// One node, or none.
#[inline(always)]
fn one(node: Option<u16>) -> Behind
    ensures { IsBehind result (listed node) }
{
    match node {
        None => Behind::Nothing,
        Some(node) => Behind::One(node),
    }
}

/// One node, where two are not different ones.
#[inline(always)]
fn both(first: Option<u16>, second: Option<u16>) -> Behind
    ensures { IsBehind result (with_all (listed first) (listed second)) }
{
    match first {
        None => one(second),
        Some(node) => match second {
            None => Behind::One(node),
            Some(other) => {
                if node == other {
                    Behind::One(node)
                } else {
                    Behind::More
                }
            }
        },
    }
}

/// Enters the one node at the next place.
#[inline(always)]
fn pay<L: Ledger>(found: Behind, steps: &mut Steps<L>)
    ensures { (size : ℕ) → 1 ≤ size → IsPaid size found steps.old steps.new }
{
    match found {
        Behind::One(_) => steps.tick(),
        _ => {}
    }
}

/// Enters the two nodes of a fork, and the one node at the next place.
#[inline(always)]
fn pay_fork<L: Ledger>(found: Behind, steps: &mut Steps<L>)
    ensures { (size : ℕ) → 3 ≤ size → IsPaid size found steps.old steps.new }
{
    match found {
        Behind::Nothing => {
            steps.tick();
            steps.tick();
        }
        Behind::One(_) => {
            steps.tick();
            steps.tick();
            steps.tick();
        }
        Behind::More => {}
    }
}

/// What comes behind a node that stands alone at a place before the end: it takes the byte, or forks to two that do.
#[inline(always)]
fn next_of<L: Ledger>(course: &Course<'_>, at: usize, number: u16, steps: &mut Steps<L>) -> Behind
    requires course { IsCourse course.now.nodes.now course.now.start }
    requires number { number < length course.now.nodes.now }
    requires within { at < length course.now.text.now }
    ensures next { IsNext course.now.text.now course.now.nodes.now course.now.start at number result }
    ensures inside { IsInside result (length course.now.nodes.now) }
    ensures paid { IsPaid (length course.now.nodes.now) result steps.old steps.new }
{
    let byte = course.text[at];
    let node = course.nodes[number as usize];
    if takes(node) {
        let found = one(target(node, byte));
        pay(found, steps);
        return found;
    }
    let Node::Split(left, right) = node else {
        return Behind::More;
    };
    let first = course.nodes[left as usize];
    let second = course.nodes[right as usize];
    if left == right || !takes(first) || !takes(second) {
        return Behind::More;
    }
    let found = both(target(first, byte), target(second, byte));
    pay_fork(found, steps);
    found
}

/// Follows a node that stands alone, as long as one node alone comes behind it and no walk starts.
pub fn follow<L: Ledger>(
    course: &Course<'_>,
    from: usize,
    number: u16,
    steps: &mut Steps<L>,
) -> Stop
    requires course { IsCourse course.now.nodes.now course.now.start }
    requires number { number < length course.now.nodes.now }
    requires within { from ≤ length course.now.text.now }
    requires begun { IsBegun course.now.text.now course.now.start from (number ∷ []) }
    requires on { IsOn course.now.text.now course.now.nodes.now course.now.start from (number ∷ []) }
    ensures on { IsOn course.now.text.now course.now.nodes.now course.now.start result.at (listed result.node) }
    ensures order { (from ≤ result.at) × (result.at ≤ length course.now.text.now) }
    ensures farther { IfNone result.node (from < result.at) }
    ensures inside { IfSome result.node (λ node. node < length course.now.nodes.now) }
    ensures rises { steps.old ≤ steps.new }
    ensures spends { Spends (length course.now.nodes.now) steps.old from 1 steps.new result.at
        (length (listed result.node)) }
{
    let mut at = from;
    let mut node = number;
    while at < course.text.len() {
        match next_of(course, at, node, steps) {
            Behind::Nothing => {
                return Stop {
                    at: at + 1,
                    node: None,
                };
            }
            Behind::More => break,
            Behind::One(next) => node = next,
        }
        at += 1;
        if starts_at(&course.start.places, at, byte_at(course.text, at)) {
            break;
        }
    }
    Stop {
        at,
        node: Some(node),
    }
}
