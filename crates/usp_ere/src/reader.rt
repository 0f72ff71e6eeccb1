//! The text is read in one pass.
ghost use Rattle.std.specs.Prelude.{◌≡◌, Some, IfOk, IfErr};
ghost use Rattle.usp_ere.specs.Marks.{state_of, IsEndFaultOf, IsReading, IsTokenFault};
ghost use Rattle.usp_ere.specs.Reading.{whole};
ghost use Rattle.usp_ere.specs.Shape.{expr_of};

use crate::fault::EreFault;
use crate::line::{finish_list, fresh_line};
use crate::parse::{State, step};
use crate::place::place_behind;
use crate::tokens::mark_at;
use crate::tree::Tree;
use std::alloc::Global;

/// The tree that was read, where the text ends at a place.
fn finish(alloc: Global, end: usize, state: State) -> Result<Tree, EreFault>
    ensures tree { IfOk result (λ tree. whole (state_of state) ≡ Some (expr_of tree)) }
    ensures fault { IfErr result (λ fault. IsEndFaultOf end state fault) }
{
    let State { now, around } = state;
    if !around.is_empty() {
        return Err(EreFault::Syntax { at: end });
    }
    match finish_list(alloc, now)? {
        None => Err(EreFault::Undefined { at: end }),
        Some(tree) => Ok(tree),
    }
}

/// The tree of the text, or the fault of its tokens.
pub fn read(alloc: Global, text: &[u8]) -> Result<Tree, EreFault>
    ensures tree { IfOk result (λ tree. IsReading text.now (expr_of tree)) }
    ensures fault { IfErr result (λ fault. IsTokenFault text.now fault) }
{
    let mut state = State {
        now: fresh_line(alloc, None),
        around: Vec::new(alloc),
    };
    let mut at = 0;
    while at < text.len() {
        let mark = mark_at(alloc, text, at)?;
        let next = place_behind(at, mark.bytes(), text.len());
        state = step(alloc, at, state, mark)?;
        at = next;
    }
    finish(alloc, at, state)
}
