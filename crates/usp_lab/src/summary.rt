//! What a lab prints of a generated script, and whether an ask was denied.
ghost use Rattle.std.specs.Prelude.{◌≡◌, ◌++◌, ℕ, not, filter, length, IfOk, OnOk};
ghost use Rattle.std.specs.List.{list_any};
ghost use Rattle.usp_lab.specs.Entries.{Run};
ghost use Rattle.usp_lab.specs.LabText.{has_denial, is_denial};
ghost use Rattle.usp_lab.specs.Reports.{IsReport};
ghost use Rattle.usp_lab.specs.Summary.{asks_text, counts_of, counts_text, summary_text, tokens_text};

#[cfg(test)]
mod tests;

use crate::numbers::push_number;
use crate::{AskReport, NoMemory, Report};
use std::alloc::Global;
use usp_edge::Verdict;

/// What is counted of a run of a generated script.
#[derive(Clone, Copy)]
struct Counts {
    groups: u64,
    asks: u64,
    admitted: u64,
    denied: u64,
    /// The nonce calls at both edges.
    calls: u128,
    /// The tokens in the ledger.
    tokens: u64,
}

fn is_denial(verdict: Verdict) -> bool
    ensures { result ≡ is_denial verdict }
{
    match verdict {
        Verdict::Admitted => false,
        Verdict::Denied(_) => true,
    }
}

fn admitted_in(asks: &[AskReport]) -> usize
    ensures { result ≡ length (filter (λ ask. not (is_denial ask.verdict)) asks.now) }
{
    asks.iter().filter(|ask| !is_denial(ask.verdict)).count()
}

fn denied_in(asks: &[AskReport]) -> usize
    ensures { result ≡ length (filter (λ ask. is_denial ask.verdict) asks.now) }
{
    asks.iter().filter(|ask| is_denial(ask.verdict)).count()
}

fn has_denied(asks: &[AskReport]) -> bool
    ensures { result ≡ list_any (λ ask. is_denial ask.verdict) asks.now }
{
    asks.iter().any(|ask| is_denial(ask.verdict))
}

/// Whether an ask was denied.
#[tactic(auto, using(crate::proofs::Counting::told_denial))]
pub fn has_denial(report: &Report) -> bool
    ensures { (edges : ℕ) (run : Run) → IsReport edges run report.now → result ≡ has_denial run }
{
    has_denied(report.asks.rows())
}

fn counts_of(groups: u64, report: &Report) -> Counts
    requires { (run : Run) × IsReport 2 run report.now }
    ensures { (run : Run) → IsReport 2 run report.now → result ≡ counts_of groups run }
{
    let asks = report.asks.rows();
    let calls = report.calls.rows();
    Counts {
        groups,
        asks: asks.len() as u64,
        admitted: admitted_in(asks) as u64,
        denied: denied_in(asks) as u64,
        calls: u128::from(calls[0]) + u128::from(calls[1]),
        tokens: u64::from(report.ledger.len()),
    }
}

// The numbers of groups and of asks, and of those that were admitted and denied.
fn push_asks(alloc: Global, text: &mut Vec<u8>, counts: &Counts) -> Result<(), NoMemory>
    ensures { OnOk result (text.new.items ≡ text.old.items ++ asks_text counts.now) }
{
    text.extend_from_slice(b"groups ")?;
    push_number(alloc, text, counts.groups)?;
    text.extend_from_slice(b" asks ")?;
    push_number(alloc, text, counts.asks)?;
    text.extend_from_slice(b" admitted ")?;
    push_number(alloc, text, counts.admitted)?;
    text.extend_from_slice(b" denied ")?;
    push_number(alloc, text, counts.denied)?;
    Ok(())
}

// The numbers of nonce calls, and of tokens in the ledger.
fn push_tokens(alloc: Global, text: &mut Vec<u8>, counts: &Counts) -> Result<(), NoMemory>
    ensures { OnOk result (text.new.items ≡ text.old.items ++ tokens_text counts.now) }
{
    text.extend_from_slice(b" calls ")?;
    let calls = counts.calls.to_string(alloc)?;
    text.extend_from_slice(calls.as_bytes())?;
    text.extend_from_slice(b" ledger ")?;
    push_number(alloc, text, counts.tokens)?;
    text.push(b'\n')?;
    Ok(())
}

fn counts_text(alloc: Global, counts: &Counts) -> Result<Vec<u8>, NoMemory>
    ensures { IfOk result (λ text. text.items ≡ counts_text counts.now) }
{
    let mut text = Vec::new(alloc);
    push_asks(alloc, &mut text, counts)?;
    push_tokens(alloc, &mut text, counts)?;
    Ok(text)
}

/// The summary of a run of the script of so many groups, from its report: one line.
///
/// ```text
/// groups 1 asks 10 admitted 8 denied 2 calls 9 ledger 9
/// ```
pub fn summary_of(alloc: Global, groups: u64, report: &Report) -> Result<Vec<u8>, NoMemory>
    requires { (run : Run) × IsReport 2 run report.now }
    ensures { IfOk result (λ text. (run : Run) → IsReport 2 run report.now
        → text.items ≡ summary_text groups run) }
{
    counts_text(alloc, &counts_of(groups, report))
}
