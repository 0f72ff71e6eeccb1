//! The walk over a text with a set of nodes.
ghost use Rattle.std.specs.Prelude.{◌≡◌, ◌+◌, ◌*◌, ◌<◌, ◌≤◌, true, false, nat_eq, [], List, ℕ, length, Some, slice_get, IsTrue, IfSome, IfNone};
ghost use Rattle.usp_ere.specs.Alone.{listed};
ghost use Rattle.usp_ere.specs.NodeSets.{with_one, with_all};
ghost use Rattle.usp_ere.specs.Walk.{stays, goes, IsBelow, AreBelow, IsCourse, IsReached, AreReached, IsWalked, IsBegun, IsOn, Grows, Accepts, Spends};

use crate::alone::{Stop, follow};
use crate::course::Course;
use crate::node_set::NodeSet;
use crate::nodes::Node;
use crate::start::{byte_at, next_start, starts_at};
use std::sync::ledger::Ledger;
use usp_base::Steps;

/// A place of a text: whether it is the first one, and the byte that stands there, if any.
#[derive(Clone, Copy)]
struct Place {
    first: bool,
    byte: Option<u8>,
}

/// Enters a node: a step, where it was not entered before.
#[inline(always)]
#[tactic(auto, using(crate::proofs::NodeSetLemmas::length_with_one))]
fn enter<L: Ledger>(set: &mut NodeSet, number: u16, steps: &mut Steps<L>)
    requires { number < set.old.room }
    ensures after { set.new ≡ record { most = set.old.most; room = set.old.room; list = with_one set.old.list number } }
    ensures rises { steps.old ≤ steps.new }
    ensures counted { steps.new + length set.old.list ≡ steps.old + length set.new.list }
{
    if set.add(number) {
        steps.tick();
    }
}

/// Makes the moves of a node.
#[inline(always)]
fn work<L: Ledger>(
    node: Node,
    place: Place,
    now: &mut NodeSet,
    next: &mut NodeSet,
    steps: &mut Steps<L>,
)
    requires now { IsBelow node now.old.room }
    requires next { IsBelow node next.old.room }
    ensures now { now.new ≡ record {
      most = now.old.most;
      room = now.old.room;
      list = with_all now.old.list (stays node place.first place.byte);
    } }
    ensures next { next.new ≡ record {
      most = next.old.most;
      room = next.old.room;
      list = with_all next.old.list (goes node place.byte);
    } }
    ensures rises { steps.old ≤ steps.new }
    ensures counted { steps.new + length now.old.list + length next.old.list
        ≡ steps.old + length now.new.list + length next.new.list }
{
    match node {
        Node::Accept => {}
        Node::Byte(only, to) => {
            if place.byte == Some(only) {
                enter(next, to, steps);
            }
        }
        Node::Any(to) => {
            if place.byte.is_some() {
                enter(next, to, steps);
            }
        }
        Node::OneOf(set, to) => {
            if let Some(byte) = place.byte {
                if set.has(byte) {
                    enter(next, to, steps);
                }
            }
        }
        Node::Begin(to) => {
            if place.first {
                enter(now, to, steps);
            }
        }
        Node::End(to) => {
            if place.byte.is_none() {
                enter(now, to, steps);
            }
        }
        Node::Split(one, other) => {
            enter(now, one, steps);
            enter(now, other, steps);
        }
    }
}

/// Works the nodes of a place, and answers whether one accepts.
fn pass<L: Ledger>(
    course: &Course<'_>,
    at: usize,
    now: &mut NodeSet,
    next: &mut NodeSet,
    steps: &mut Steps<L>,
) -> bool
    requires below { AreBelow course.now.nodes.now }
    requires rooms { (now.old.room ≡ length course.now.nodes.now) × (next.old.room ≡ length course.now.nodes.now) }
    requires within { at ≤ length course.now.text.now }
    requires reached { AreReached course.now.text.now course.now.nodes.now course.now.start at now.old.list }
    requires none { next.old.list ≡ [] }
    ensures found { result ≡ true → IsReached course.now.text.now course.now.nodes.now course.now.start at 0 }
    ensures grows { Grows now.old.list now.new.list }
    ensures ahead { AreReached course.now.text.now course.now.nodes.now course.now.start (at + 1) next.new.list }
    ensures walked { result ≡ false
        → IsWalked course.now.text.now course.now.nodes.now course.now.start at (length now.new.list) now.new.list
        next.new.list }
    ensures rises { steps.old ≤ steps.new }
    ensures counted { steps.new + length now.old.list ≡ steps.old + length now.new.list + length next.new.list }
    ensures rooms { (now.new.room ≡ length course.now.nodes.now) × (next.new.room ≡ length course.now.nodes.now) }
    ensures most { (now.new.most ≡ now.old.most) × (next.new.most ≡ next.old.most) }
{
    let place = Place {
        first: at == 0,
        byte: byte_at(course.text, at),
    };
    let mut k = 0;
    while k < now.len() {
        let number = now.at(k);
        if number == 0 {
            return true;
        }
        work(course.nodes[number as usize], place, now, next, steps);
        k += 1;
    }
    false
}

/// Enters the start at a place, where the walk starts there.
#[inline(always)]
#[tactic(auto, using(crate::proofs::WalkLemmas::begin_rules))]
fn begin<L: Ledger>(course: &Course<'_>, at: usize, now: &mut NodeSet, steps: &mut Steps<L>)
    requires start { course.now.start.node < now.old.room }
    requires within { at ≤ length course.now.text.now }
    requires reached { AreReached course.now.text.now course.now.nodes.now course.now.start at now.old.list }
    ensures reached { AreReached course.now.text.now course.now.nodes.now course.now.start at now.new.list }
    ensures grows { Grows now.old.list now.new.list }
    ensures begun { IsBegun course.now.text.now course.now.start at now.new.list }
    ensures rises { steps.old ≤ steps.new }
    ensures counted { steps.new + length now.old.list ≡ steps.old + length now.new.list }
    ensures room { now.new.room ≡ now.old.room }
    ensures most { now.new.most ≡ now.old.most }
{
    if starts_at(&course.start.places, at, byte_at(course.text, at)) {
        enter(now, course.start.node, steps);
    }
}

/// Goes on behind a place at which one node stands alone, where nothing but nodes that stand alone comes for a while:
/// answers the place at which the walk goes on with the next nodes.
#[inline(always)]
#[tactic(auto, using(crate::proofs::WalkLemmas::on_over, crate::proofs::WalkLemmas::spends_over))]
fn land(course: &Course<'_>, stop: Stop, next: &mut NodeSet) -> usize
    requires rooms { next.old.room ≡ length course.now.nodes.now }
    requires none { next.old.list ≡ [] }
    requires within { stop.at ≤ length course.now.text.now }
    requires inside { IfSome stop.node (λ node. node < length course.now.nodes.now) }
    requires on { IsOn course.now.text.now course.now.nodes.now course.now.start stop.at (listed stop.node) }
    ensures on { IsOn course.now.text.now course.now.nodes.now course.now.start result next.new.list }
    ensures order { (stop.at ≤ result) × (result ≤ length course.now.text.now + 1) }
    ensures long { length next.new.list ≡ length (listed stop.node) }
    ensures room { next.new.room ≡ next.old.room }
    ensures most { next.new.most ≡ next.old.most }
{
    match stop.node {
        Some(node) => {
            next.add(node);
            stop.at
        }
        None => next_start(&course.start.places, course.text, stop.at),
    }
}

/// Works the nodes of a place at which the walk has begun, and answers the place at which it goes on with the next
/// nodes, or none where a node accepts.
fn sweep<L: Ledger>(
    course: &Course<'_>,
    at: usize,
    now: &mut NodeSet,
    next: &mut NodeSet,
    steps: &mut Steps<L>,
) -> Option<usize>
    requires course { IsCourse course.now.nodes.now course.now.start }
    requires rooms { (now.old.room ≡ length course.now.nodes.now) × (next.old.room ≡ length course.now.nodes.now) }
    requires within { at ≤ length course.now.text.now }
    requires none { next.old.list ≡ [] }
    requires on { IsOn course.now.text.now course.now.nodes.now course.now.start at now.old.list }
    requires begun { IsBegun course.now.text.now course.now.start at now.old.list }
    ensures found { IfNone result (Accepts course.now.nodes.now course.now.start course.now.text.now) }
    ensures on { IfSome result (λ to. IsOn course.now.text.now course.now.nodes.now course.now.start to next.new.list) }
    ensures order { IfSome result (λ to. (at < to) × (to ≤ length course.now.text.now + 1)) }
    ensures rises { steps.old ≤ steps.new }
    ensures counted { IfSome result (λ to.
        Spends (length course.now.nodes.now) steps.old at (length now.old.list) steps.new to (length next.new.list)) }
    ensures last { IfNone result
        (Spends (length course.now.nodes.now) steps.old at (length now.old.list) steps.new
        (length course.now.text.now + 1) 0) }
    ensures rooms { (now.new.room ≡ length course.now.nodes.now) × (next.new.room ≡ length course.now.nodes.now) }
    ensures most { (now.new.most ≡ now.old.most) × (next.new.most ≡ next.old.most) }
{
    if pass(course, at, now, next, steps) {
        let (_worked, _coming) = (now.len(), next.len());
        return None;
    }
    let _entered = now.len();
    if next.len() == 0 {
        Some(next_start(&course.start.places, course.text, at + 1))
    } else {
        Some(at + 1)
    }
}

/// Works a place, and answers the place at which the walk goes on with the next nodes, or none where a node accepts.
#[tactic(auto, using(crate::proofs::WalkLemmas::advance_rules))]
fn advance<L: Ledger>(
    course: &Course<'_>,
    at: usize,
    now: &mut NodeSet,
    next: &mut NodeSet,
    steps: &mut Steps<L>,
) -> Option<usize>
    requires course { IsCourse course.now.nodes.now course.now.start }
    requires rooms { (now.old.room ≡ length course.now.nodes.now) × (next.old.room ≡ length course.now.nodes.now) }
    requires within { at ≤ length course.now.text.now }
    requires on { IsOn course.now.text.now course.now.nodes.now course.now.start at now.old.list }
    ensures found { IfNone result (Accepts course.now.nodes.now course.now.start course.now.text.now) }
    ensures on { IfSome result (λ to. IsOn course.now.text.now course.now.nodes.now course.now.start to next.new.list) }
    ensures order { IfSome result (λ to. (at < to) × (to ≤ length course.now.text.now + 1)) }
    ensures rises { steps.old ≤ steps.new }
    ensures counted { IfSome result (λ to.
        Spends (length course.now.nodes.now) steps.old at (length now.old.list) steps.new to (length next.new.list)) }
    ensures last { IfNone result
        (Spends (length course.now.nodes.now) steps.old at (length now.old.list) steps.new
        (length course.now.text.now + 1) 0) }
    ensures rooms { (now.new.room ≡ length course.now.nodes.now) × (next.new.room ≡ length course.now.nodes.now) }
    ensures most { (now.new.most ≡ now.old.most) × (next.new.most ≡ next.old.most) }
{
    next.clear();
    begin(course, at, now, steps);
    let Some(node) = now.alone() else {
        return sweep(course, at, now, next, steps);
    };
    let stop = follow(course, at, node, steps);
    if stop.at == at {
        return sweep(course, at, now, next, steps);
    }
    Some(land(course, stop, next))
}

/// Whether a path leads from the start, from some place of the text where the walk starts, to the node 0.
pub fn walk<L: Ledger>(
    course: &Course<'_>,
    now: &mut NodeSet,
    next: &mut NodeSet,
    steps: &mut Steps<L>,
) -> bool
    requires course { IsCourse course.now.nodes.now course.now.start }
    requires room { length course.now.nodes.now ≤ now.old.most }
    requires same { next.old.most ≡ now.old.most }
    ensures accepts { result ≡ true → Accepts course.now.nodes.now course.now.start course.now.text.now }
    ensures refuses { result ≡ false → Accepts course.now.nodes.now course.now.start course.now.text.now → ⊥ }
    ensures rises { steps.old ≤ steps.new }
    ensures bound { steps.new ≤ steps.old + (length course.now.text.now + 1) * length course.now.nodes.now }
    ensures most { (now.new.most ≡ now.old.most) × (next.new.most ≡ now.old.most) }
{
    let size = course.nodes.len();
    now.fit(size);
    next.fit(size);
    let end = course.text.len();
    let mut at = next_start(&course.start.places, course.text, 0);
    while at <= end {
        let Some(middle) = advance(course, at, now, next, steps) else {
            return true;
        };
        if end < middle {
            return false;
        }
        let Some(after) = advance(course, middle, next, now, steps) else {
            return true;
        };
        at = after;
    }
    false
}
