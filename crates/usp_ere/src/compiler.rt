//! The calls that make what a match needs.
ghost use Rattle.std.specs.Prelude.{◌≡◌, ℕ, List, IfOk, IfErr, Some, None};
ghost use Rattle.usp_ere.specs.Compiled.{Compiles, IsRefusedFor, expression_of};
ghost use Rattle.usp_ere.specs.Expression.{Expr, size_of};
ghost use Rattle.usp_ere.specs.Faults.{fault_of, first_odd, first_of_both};
ghost use Rattle.usp_ere.specs.Grammar.{Spells};

use crate::ere::Ere;
use crate::fault::EreFault;
use crate::reader::read;
use crate::room::Scratch;
use crate::set::is_between;
use std::alloc::{AllocError, Global};
use std::error::Error;
use std::fmt;

/// There was no memory.
#[derive(Clone, Copy, Debug, PartialEq, Eq)]
pub struct NoMemory;

impl fmt::Display for NoMemory {
    fn fmt<W: fmt::Write>(&self, f: &mut fmt::Formatter<W>) -> fmt::Result {
        write!(f, "out of memory: try again with more")
    }
}

impl Error for NoMemory {}

impl From<AllocError> for NoMemory {
    fn from(_: AllocError) -> NoMemory {
        NoMemory
    }
}

/// The place of the first byte that is no printable ASCII character.
fn first_odd(text: &[u8]) -> Option<usize>
    ensures { result ≡ first_odd text.now }
{
    text.iter().position(|byte| !is_between(b' ', b'~', *byte))
}

/// The earlier one of a fault of the tokens and a byte out of range: at one place the other goes first.
fn first_of_both(fault: EreFault, odd: Option<usize>) -> EreFault
    ensures { Some result ≡ first_of_both (Some fault) odd }
{
    match odd {
        Some(at) if at < fault.place() => EreFault::Undefined { at },
        _ => fault,
    }
}

/// The expression that the text spells: a POSIX extended regular expression (POSIX, Base Definitions,
/// section 9.4) over the bytes 0x20 to 0x7e, whose undefined forms are refused. The recursion over an
/// expression is as deep as its longest branch or its nested repeats, so at most as deep as the text is long.
pub fn compile(alloc: Global, text: &[u8]) -> Result<Ere, EreFault>
    // It spells the text, and has at most `MAX_SIZE` nodes.
    ensures accepted { IfOk result (λ ere. Compiles text.now (expression_of ere)) }
    // The fault is that of the first place, and TooLarge only where there is none. Want of memory is free.
    ensures refused { IfErr result (λ fault. IsRefusedFor text.now fault) }
{
    let odd = first_odd(text);
    let tree = match read(alloc, text) {
        Ok(tree) => tree,
        Err(fault) => return Err(first_of_both(fault, odd)),
    };
    if let Some(at) = odd {
        return Err(EreFault::Undefined { at });
    }
    Ere::of(alloc, tree)
}

/// What a match of the expression needs.
pub fn scratch(alloc: Global, ere: &Ere) -> Result<Scratch, NoMemory>
    ensures { IfOk result (λ scratch. scratch ≡ size_of (expression_of ere.now)) }
{
    Ok(Scratch::for_size(alloc, ere.size())?)
}

/// A text spells one expression at most.
pub fn one_expression()
    ensures { (x y : Expr) (text : List ℕ) → Spells x text → Spells y text → x ≡ y }
{}

/// A text without a fault spells an expression.
pub fn no_other_fault()
    ensures { (text : List ℕ) → fault_of text ≡ None → (e : Expr) × Spells e text }
{}
