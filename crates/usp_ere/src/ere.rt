//! A compiled expression.
use crate::fault::EreFault;
use crate::limits::MAX_SIZE;
use crate::program::Program;
use crate::room::Scratch;
use crate::tree::Tree;
use std::alloc::Global;
use std::sync::ledger::Ledger;
use usp_base::Steps;

/// A compiled expression. Contracts see its `expression_of`.
#[derive(Drop)]
pub struct Ere {
    program: Program,
}

impl Ere {
    ghost use Rattle.usp_ere.specs.Shape.{expr_of};
    ghost use Rattle.std.specs.Prelude.{◌≡◌, ◌≤◌, ◌<◌, ◌+◌, ◌*◌, ◌↔◌, IfOk, IfErr, IsTrue, length};
    ghost use Rattle.usp_ere.specs.Built.{IsUnbuiltFor};
    ghost use Rattle.usp_ere.specs.Compiled.{expression_of};
    ghost use Rattle.usp_ere.specs.Expression.{Finds, size_of};
    ghost use Rattle.usp_ere.specs.Nodes.{IsInOrder};

    /// The compiled tree, unless it has more than `MAX_SIZE` nodes.
    pub(crate) fn of(alloc: Global, tree: Tree) -> Result<Ere, EreFault>
        requires { IsInOrder (expr_of tree) }
        ensures same { IfOk result (λ ere. expression_of ere ≡ expr_of tree) }
        ensures small { IfOk result (λ ere. size_of (expr_of tree) ≤ MAX_SIZE) }
        ensures large { IfErr result (λ fault. IsUnbuiltFor (expr_of tree) fault) }
    {
        Ok(Ere {
            program: Program::of(alloc, tree)?,
        })
    }

    /// How many nodes the expression has.
    pub fn size(&self) -> usize
        ensures { result ≡ size_of (expression_of self.now) }
    {
        self.program.len()
    }

    /// Whether some part of the text is in the expression. A step is the entering of one node at one place.
    pub fn is_match<L: Ledger>(
        &self,
        text: &[u8],
        scratch: &mut Scratch,
        steps: &mut Steps<L>,
    ) -> bool
        requires room { size_of (expression_of self.now) ≤ scratch.old }
        ensures found { IsTrue result ↔ Finds (expression_of self.now) text.now }
        ensures room { scratch.new ≡ scratch.old }
        ensures rises { steps.old ≤ steps.new }
        ensures bound { steps.new ≤ steps.old + (length text.now + 1) * size_of (expression_of self.now) }
    {
        self.program
            .finds(text, &mut scratch.now, &mut scratch.next, steps)
    }
}
