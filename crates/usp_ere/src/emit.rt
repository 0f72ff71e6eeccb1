//! The nodes of an expression are written out, each part behind what it goes on to.
ghost use Rattle.std.specs.Prelude.{◌≡◌, ℕ, ◌+◌, ◌*◌, ◌-◌, ◌<◌, ◌≤◌, ◌^◌, ◌++◌, ◌∷◌, [], Option, length, IfOk};
ghost use Rattle.usp_ere.specs.Expression.{nodes_of};
ghost use Rattle.usp_ere.specs.Nodes.{Block};
ghost use Rattle.usp_ere.specs.Kept.{nodes_of_rest, Writes, WritesCopies, WritesLoop, WritesOptions, WritesRest};
ghost use Rattle.usp_ere.specs.Shape.{expr_of};

use crate::limits::MAX_SIZE;
use crate::nodes::Node;
use crate::tree::Tree;
use std::alloc::AllocError;

/// Writes one node, and answers its number.
fn push(nodes: &mut Vec<Node>, node: Node) -> Result<u16, AllocError>
    requires { length nodes.old.items < MAX_SIZE }
    ensures { IfOk result (λ entry. (nodes.new.items ≡ nodes.old.items ++ node ∷ [])
        × (entry ≡ length nodes.old.items)) }
{
    let entry = nodes.len() as u16;
    nodes.push(node)?;
    Ok(entry)
}

/// Writes the nodes of the tree, which go on to a node, and answers the number of the first one.
#[cycle(emit)]
#[tactic(auto, using(crate::proofs::EmitLemmas::writing_rules))]
pub fn emit(nodes: &mut Vec<Node>, tree: &Tree, exit: u16) -> Result<u16, AllocError>
    requires { length nodes.old.items + nodes_of (expr_of tree.now) ≤ MAX_SIZE }
    ensures { IfOk result (λ entry. Writes nodes.old.items nodes.new.items (expr_of tree.now) entry exit) }
{
    match tree {
        Tree::Byte(byte) => push(nodes, Node::Byte(*byte, exit)),
        Tree::Any => push(nodes, Node::Any(exit)),
        Tree::OneOf(set) => push(nodes, Node::OneOf(set.bytes, exit)),
        Tree::Begin => push(nodes, Node::Begin(exit)),
        Tree::End => push(nodes, Node::End(exit)),
        Tree::Both(x, y) => {
            let behind = emit(nodes, y, exit)?;
            emit(nodes, x, behind)
        }
        Tree::Either(x, y) => {
            let first = emit(nodes, x, exit)?;
            let second = emit(nodes, y, exit)?;
            push(nodes, Node::Split(first, second))
        }
        Tree::Repeat(x, least, most) => {
            let behind = emit_rest(nodes, x, *least, *most, exit)?;
            emit_copies(nodes, x, *least, behind)
        }
    }
}

/// Writes what a repeat has beyond its least count.
#[cycle(emit)]
fn emit_rest(
    nodes: &mut Vec<Node>,
    tree: &Tree,
    least: u8,
    most: Option<u8>,
    exit: u16,
) -> Result<u16, AllocError>
    requires { length nodes.old.items + nodes_of_rest (nodes_of (expr_of tree.now)) least most ≤ MAX_SIZE }
    ensures { IfOk result (λ entry. WritesRest nodes.old.items nodes.new.items (expr_of tree.now)
        least most entry exit) }
{
    match most {
        None => emit_loop(nodes, tree, exit),
        Some(most) => emit_options(nodes, tree, most.saturating_sub(least), exit),
    }
}

/// Writes a loop over the tree.
#[cycle(emit)]
#[tactic(auto, using(crate::proofs::EmitLemmas::writes_loop))]
fn emit_loop(nodes: &mut Vec<Node>, tree: &Tree, exit: u16) -> Result<u16, AllocError>
    requires { length nodes.old.items + nodes_of (expr_of tree.now) < MAX_SIZE }
    ensures { IfOk result (λ entry. WritesLoop nodes.old.items nodes.new.items (expr_of tree.now) entry exit) }
{
    let entry = push(nodes, Node::Accept)?;
    let first = emit(nodes, tree, entry)?;
    nodes[entry as usize] = Node::Split(first, exit);
    Ok(entry)
}

/// Writes so many copies of the tree, each going on to the one before it. Where a copy takes no node, so do all.
#[cycle(emit)]
fn emit_copies(nodes: &mut Vec<Node>, tree: &Tree, count: u8, exit: u16) -> Result<u16, AllocError>
    requires { length nodes.old.items + count * nodes_of (expr_of tree.now) ≤ MAX_SIZE }
    ensures { IfOk result (λ entry. WritesCopies nodes.old.items nodes.new.items (expr_of tree.now) count entry exit) }
{
    let mut entry = exit;
    for copy in 0..count {
        let before = nodes.len();
        entry = emit(nodes, tree, entry)?;
        if nodes.len() == before {
            return Ok(entry);
        }
    }
    Ok(entry)
}

/// Writes so many copies of the tree, before each of which it may go on to the exit.
#[cycle(emit)]
fn emit_options(nodes: &mut Vec<Node>, tree: &Tree, count: u8, exit: u16) -> Result<u16, AllocError>
    requires { length nodes.old.items + count * (nodes_of (expr_of tree.now) + 1) ≤ MAX_SIZE }
    ensures { IfOk result (λ entry. WritesOptions nodes.old.items nodes.new.items (expr_of tree.now) count entry exit) }
{
    let mut entry = exit;
    for copy in 0..count {
        let first = emit(nodes, tree, entry)?;
        entry = push(nodes, Node::Split(first, exit))?;
    }
    Ok(entry)
}
