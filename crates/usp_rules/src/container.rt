//! Containers.
ghost use Rattle.std.specs.Prelude.{◌≡◌, ◌↔◌, ◌<◌, ℕ, List, IsTrue, IfOk};
ghost use Rattle.usp_ere.specs.Compiled.{expression_of};
ghost use Rattle.usp_ere.specs.Expression.{Finds};
ghost use Rattle.usp_rules.specs.Kinds.{IsCompiled, MeetsAs, ReadsAs};
ghost use Rattle.usp_rules.specs.Containers.{Meets};
ghost use Rattle.usp_rules.specs.Segment.{segment_of};

use crate::NoMemory;
use crate::segment::segment_of;
use std::alloc::Global;
use std::marker::Brand;
use std::sync::ledger::{Blank, Ledger};
use usp_base::{Steps, after_prefix};
use usp_ere::{Ere, compile, scratch};
use usp_uri::Uri;

/// Which contents a token is for, as its claim `cdniuc` says (RFC 9246 section 2.1.15).
#[derive(Drop)]
pub enum Container<'a> {
    /// `hash:` and what follows it: the one content whose segment this is.
    Hash(&'a [u8]),
    /// `regex:` and an expression: the contents of which it finds some part.
    Regex(Ere),
    /// Neither, or an expression with a fault: no content.
    Refused,
}

// Whether the expression finds some part of the text, counting steps that nobody reads.
fn finds_by<L: Ledger>(
    alloc: Global,
    blank: Blank,
    ere: &Ere,
    text: &[u8],
) -> Result<bool, NoMemory>
    requires name { blank.name ≡ L.name }
    requires parts { blank.parts ≡ L.parts }
    requires some { 0 < blank.parts }
    ensures { IfOk result (λ found. IsTrue found ↔ Finds (expression_of ere.now) text.now) }
{
    let mut scratch = scratch(alloc, ere)?;
    let mut steps = Steps::<L>::new(blank);
    Ok(ere.is_match(text, &mut scratch, &mut steps))
}

// Whether the expression finds some part of the text.
fn finds(alloc: Global, ere: &Ere, text: &[u8]) -> Result<bool, NoMemory>
    ensures { IfOk result (λ found. IsTrue found ↔ Finds (expression_of ere.now) text.now) }
{
    finds_by::<Brand>(alloc, Blank::new(1), ere, text)
}

// The expression of a text. None exactly where it has a fault or is too large.
fn of_expression(alloc: Global, text: &[u8]) -> Result<Option<Ere>, NoMemory>
    ensures { IfOk result (λ found. IsCompiled text.now found) }
{
    let fault = match compile(alloc, text) {
        Ok(ere) => return Ok(Some(ere)),
        Err(fault) => fault,
    };
    if fault.is_memory() {
        return Err(NoMemory);
    }
    Ok(None)
}

impl<'a> Container<'a> {
    /// What a container text is read as.
    pub fn of(alloc: Global, text: &'a [u8]) -> Result<Container<'a>, NoMemory>
        ensures { IfOk result (λ container. ReadsAs text.now container) }
    {
        if let Some(segment) = after_prefix(text, b"hash:") {
            return Ok(Container::Hash(segment));
        }
        let Some(expression) = after_prefix(text, b"regex:") else {
            return Ok(Container::Refused);
        };
        match of_expression(alloc, expression)? {
            Some(ere) => Ok(Container::Regex(ere)),
            None => Ok(Container::Refused),
        }
    }

    /// Whether the container meets the URI.
    pub fn meets(&self, alloc: Global, uri: &Uri) -> Result<bool, NoMemory>
        ensures kind { IfOk result (λ met. IsTrue met ↔ MeetsAs self.now uri.now) }
        ensures text { (text : List ℕ) → ReadsAs text self.now
            → IfOk result (λ met. IsTrue met ↔ Meets text uri.now) }
    {
        match self {
            Container::Hash(segment) => Ok(*segment == segment_of(uri.text()).as_slice()),
            Container::Regex(ere) => finds(alloc, ere, uri.text()),
            Container::Refused => Ok(false),
        }
    }
}
