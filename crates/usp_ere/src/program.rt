//! An expression beside its numbered nodes.
ghost use Rattle.std.specs.Prelude.{◌≡◌, ◌≤◌, ◌<◌, ◌+◌, ◌*◌, ◌↔◌, IfOk, IfErr, IsTrue, length};
ghost use Rattle.usp_ere.specs.Built.{IsUnbuiltFor};
ghost use Rattle.usp_ere.specs.Expression.{Finds, size_of};
ghost use Rattle.usp_ere.specs.Nodes.{IsInOrder};
ghost use Rattle.usp_ere.specs.Shape.{expr_of};

use crate::course::Course;
use crate::emit::emit;
use crate::fault::EreFault;
use crate::limits::MAX_SIZE;
use crate::node_set::NodeSet;
use crate::nodes::Node;
use crate::plan::Plan;
use crate::size::nodes_up_to;
use crate::tree::Tree;
use crate::walk::walk;
use std::alloc::Global;
use std::marker::Model;
use std::sync::ledger::Ledger;
use usp_base::Steps;

/// A tree with its nodes. Contracts see the tree.
#[derive(Drop)]
pub struct Program {
    tree: Tree,
    nodes: Vec<Node>,
    plan: Plan,
}

impl Model for Program {
    ghost use Rattle.usp_ere.specs.Plans.{IsPlanned};
    ghost use Rattle.usp_ere.specs.Shape.{expr_of};
    ghost use Rattle.usp_ere.specs.declared.tree.Tree.{Tree};
    ghost use Rattle.usp_ere.specs.contracts.tree.Tree as e;
    ghost use Rattle.std.specs.Coded.{codes};

    ghost Value = { Tree };

    ghost coded = { Prim.hlevel (codes, e.the_row.coded) };

    ghost view = { λ p. p.tree };

    ghost invariant = { λ p. IsPlanned p.nodes.items (expr_of p.tree) p.plan.literal.items p.plan.start };
}

impl Program {
    /// The tree with its nodes, unless these are more than 4,000.
    pub fn of(alloc: Global, tree: Tree) -> Result<Program, EreFault>
        requires { IsInOrder (expr_of tree) }
        ensures same { IfOk result (λ program. program ≡ tree) }
        ensures small { IfOk result (λ program. size_of (expr_of tree) ≤ MAX_SIZE) }
        ensures large { IfErr result (λ fault. IsUnbuiltFor (expr_of tree) fault) }
    {
        let count = nodes_up_to(&tree);
        if count == MAX_SIZE {
            return Err(EreFault::TooLarge);
        }
        let mut nodes = Vec::with_capacity(alloc, count + 1)?;
        nodes.push(Node::Accept)?;
        let start = emit(&mut nodes, &tree, 0)?;
        let plan = Plan::of(alloc, &tree, &nodes, start)?;
        Ok(Program { tree, nodes, plan })
    }

    pub fn len(&self) -> usize
        ensures { result ≡ size_of (expr_of self.now) }
    {
        self.nodes.len()
    }

    /// Whether some part of the text is in the expression.
    pub fn finds<L: Ledger>(
        &self,
        text: &[u8],
        now: &mut NodeSet,
        next: &mut NodeSet,
        steps: &mut Steps<L>,
    ) -> bool
        requires room { size_of (expr_of self.now) ≤ now.old.most }
        requires same { next.old.most ≡ now.old.most }
        ensures found { IsTrue result ↔ Finds (expr_of self.now) text.now }
        ensures most { (now.new.most ≡ now.old.most) × (next.new.most ≡ now.old.most) }
        ensures rises { steps.old ≤ steps.new }
        ensures bound { steps.new ≤ steps.old + (length text.now + 1) * size_of (expr_of self.now) }
    {
        if !self.plan.allows(text) {
            return false;
        }
        let course = Course {
            nodes: &self.nodes,
            start: self.plan.start,
            text,
        };
        walk(&course, now, next, steps)
    }
}
