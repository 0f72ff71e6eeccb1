//! How many nodes an expression has.
ghost use Rattle.std.specs.Prelude.{◌≡◌, ◌≤◌, min};
ghost use Rattle.usp_ere.specs.Expression.{nodes_of, size_of_repeat};
ghost use Rattle.usp_ere.specs.Shape.{expr_of};

use crate::limits::MAX_SIZE;
use crate::tree::Tree;

/// The nodes of a repeat over a piece of so many nodes, counted up to `MAX_SIZE`.
#[tactic(auto, using(crate::proofs::SizeLemmas::least_product, crate::proofs::SizeLemmas::more_product))]
fn repeat_nodes(nodes: usize, least: u8, most: Option<u8>) -> usize
    requires { nodes ≤ MAX_SIZE }
    ensures { result ≡ min MAX_SIZE (size_of_repeat nodes least most) }
{
    let least = usize::from(least);
    let needed = least * nodes;
    let more = match most {
        None => nodes + 1,
        Some(most) => usize::from(most).saturating_sub(least) * (nodes + 1),
    };
    (needed + more).min(MAX_SIZE)
}

/// The nodes of the tree, counted up to `MAX_SIZE`: a sum may pass every number.
#[cycle(size)]
pub fn nodes_up_to(tree: &Tree) -> usize
    ensures { result ≡ min MAX_SIZE (nodes_of (expr_of tree.now)) }
{
    match tree {
        Tree::Both(x, y) => (nodes_up_to(x) + nodes_up_to(y)).min(MAX_SIZE),
        Tree::Either(x, y) => (nodes_up_to(x) + nodes_up_to(y) + 1).min(MAX_SIZE),
        Tree::Repeat(x, least, most) => repeat_nodes(nodes_up_to(x), *least, *most),
        _ => 1,
    }
}
