//! How a text is searched: it begins with a literal, and a walk starts behind it.
ghost use Rattle.std.specs.Prelude.{◌≡◌, ◌+◌, ◌<◌, ◌≤◌, ℕ, List, length, IfOk, IsTrue};
ghost use Rattle.usp_ere.specs.Built.{IsBuilt};
ghost use Rattle.usp_ere.specs.Plans.{are_optional, is_optional, FindAlike, IsCovered, IsLed, IsPart, IsPlanned};
ghost use Rattle.usp_ere.specs.Places.{Spans};
ghost use Rattle.usp_ere.specs.Shape.{expr_of};
ghost use Rattle.usp_ere.specs.Walk.{AreBelow};

use crate::course::{Places, Start};
use crate::front::front_of;
use crate::nodes::Node;
use crate::tree::Tree;
use std::alloc::{AllocError, Global};

/// The bytes with which a text begins that is in the expression, and the start of the walk behind them.
#[derive(Drop)]
pub struct Plan {
    pub literal: Vec<u8>,
    pub start: Start,
}

/// Whether each text that is in the expression begins where the whole text does. It may say no of one
/// whose texts do.
#[cycle(begins)]
fn begins(tree: &Tree) -> bool
    ensures { IsTrue result → (text : List ℕ) (from to : ℕ) → Spans text (expr_of tree.now) from to → from ≡ 0 }
{
    match tree {
        Tree::Begin => true,
        Tree::Both(x, _) => begins(x),
        Tree::Either(x, y) => begins(x) && begins(y),
        _ => false,
    }
}

/// The places at which a text may begin that is in the expression.
#[tactic(auto, using(crate::proofs::PlanLemmas::covering_rules))]
fn places_of(tree: &Tree) -> Places
    ensures { IsCovered result (expr_of tree.now) }
{
    if begins(tree) {
        return Places::At(0);
    }
    let front = front_of(tree);
    if front.empty {
        Places::Anywhere
    } else {
        Places::Before(front.bytes)
    }
}

/// The bytes that each path from a node takes first, and the node behind them.
#[tactic(auto, using(crate::proofs::PlanLemmas::led_none, crate::proofs::PlanLemmas::led_more))]
fn literal_from(alloc: Global, nodes: &[Node], node: u16) -> Result<(Vec<u8>, u16), AllocError>
    requires below { AreBelow nodes.now }
    requires node { node < length nodes.now }
    ensures { IfOk result (λ found. IsLed nodes.now node found.0.items found.1) }
{
    let mut literal = Vec::new(alloc);
    let mut behind = node;
    for _ in 0..nodes.len() {
        let Node::Byte(byte, next) = nodes[behind as usize] else {
            break;
        };
        literal.push(byte)?;
        behind = next;
    }
    Ok((literal, behind))
}

/// Whether a repeat with these counts may be left out, and has a node.
fn are_optional(least: u8, most: Option<u8>) -> bool
    ensures { result ≡ are_optional least most }
{
    match most {
        None => least == 0,
        Some(most) => least == 0 && 0 < most,
    }
}

/// Whether the tree is a repeat that may be left out, and has a node.
fn is_optional(tree: &Tree) -> bool
    ensures { result ≡ is_optional (expr_of tree.now) }
{
    match tree {
        Tree::Repeat(_, least, most) => are_optional(*least, *most),
        _ => false,
    }
}

/// The tree and its first node without the repeats at its front that may be left out: what is found with them is
/// found without them.
#[cycle(essential)]
#[tactic(auto, using(crate::proofs::PlanLemmas::alike_same))]
fn essential<'a>(tree: &'a Tree, nodes: &[Node], node: u16) -> (&'a Tree, u16)
    requires { IsPart nodes.now (expr_of tree.now) node }
    ensures part { IsPart nodes.now (expr_of result.0.now) result.1 }
    ensures alike { FindAlike (expr_of tree.now) (expr_of result.0.now) }
{
    let Tree::Both(first, rest) = tree else {
        return (tree, node);
    };
    if !is_optional(first) {
        return (tree, node);
    }
    let Node::Split(_, behind) = nodes[node as usize] else {
        return (tree, node);
    };
    essential(rest, nodes, behind)
}

impl Plan {
    ghost use Rattle.usp_ere.specs.SetText.{begins};

    /// Whether the text begins with the literal.
    #[inline(always)]
    pub fn allows(&self, text: &[u8]) -> bool
        ensures { result ≡ begins text.now self.now.literal.items }
    {
        text.starts_with(&self.literal)
    }

    /// How a text is searched for the expression.
    #[tactic(auto, using(crate::proofs::PlanLemmas::part_of))]
    pub fn of(alloc: Global, tree: &Tree, nodes: &[Node], node: u16) -> Result<Plan, AllocError>
        requires { IsBuilt nodes.now (expr_of tree.now) node }
        ensures { IfOk result (λ plan. IsPlanned nodes.now (expr_of tree.now) plan.literal.items plan.start) }
    {
        let (tree, node) = essential(tree, nodes, node);
        if let Node::Begin(first) = nodes[node as usize] {
            let (literal, node) = literal_from(alloc, nodes, first)?;
            let places = Places::At(literal.len());
            let start = Start { node, places };
            return Ok(Plan { literal, start });
        }
        let places = places_of(tree);
        let start = Start { node, places };
        let literal = Vec::new(alloc);
        Ok(Plan { literal, start })
    }
}
