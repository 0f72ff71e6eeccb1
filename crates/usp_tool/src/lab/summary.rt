//! The run of `lab-from`.
ghost use Rattle.std.specs.Prelude.{◌≡◌, ◌≤◌, IfOk};
ghost use Rattle.usp_script.specs.declared.limits.TheConstants.{MAX_GROUPS};
ghost use Rattle.usp_tool.specs.Headline.{PrintsSums, WherePrinted};
ghost use Rattle.usp_tool.specs.Lab.Run.{IsSummed, PutsSums, written_of};
ghost use Rattle.usp_tool.specs.Outcome.{IsOwn};

use super::run::{ran, status_of};
use crate::memory::NoMemory;
use crate::output::{Outcome, put_text};
use std::sync::Wait;
use std::thread::Threads;
use usp_base::{Sink, Status};
use usp_lab::{Bench, Lab, summary_of};
use usp_script::generated;

// The outcome of the script of so many groups.
fn outcome_of<R: Threads + Wait + Sync, B: Bench>(
    lab: &Lab<'_, R>,
    groups: u64,
    bench: &mut B,
) -> Result<Outcome, NoMemory>
    requires workers { lab.now.workers ≡ 1 }
    requires groups { (1 ≤ groups) × (groups ≤ MAX_GROUPS) }
    ensures summed { IfOk result (λ outcome. IsSummed groups
        (B.given_back bench.old) (B.given_back bench.new) outcome) }
    ensures own { IfOk result (λ outcome. IsOwn outcome.status) }
{
    let script = generated(lab.alloc, groups)?;
    let report = ran(lab, &script, bench)?;
    let text = summary_of(lab.alloc, groups, &report)?;
    Ok(Outcome::new(text, status_of(&report)))
}

// Runs the script of so many groups, and tells its sums.
fn run_groups<R: Threads + Wait + Sync, B: Bench, K: Sink>(
    lab: &Lab<'_, R>,
    groups: u64,
    bench: &mut B,
    out: &mut K,
) -> Status
    requires workers { lab.now.workers ≡ 1 }
    requires groups { (1 ≤ groups) × (groups ≤ MAX_GROUPS) }
    ensures { PutsSums groups (B.given_back bench.old) (B.given_back bench.new)
        (written_of K.Sink out.old) (written_of K.Sink out.new) result }
{
    match outcome_of(lab, groups, bench) {
        Ok(outcome) => put_text(out, outcome.text(), outcome.status()),
        Err(NoMemory) => Status::Memory,
    }
}

/// `lab-from N`, behind its words: runs the script of so many groups, and tells its sums. What it printed is what the
/// headline says.
pub fn run_lab_from<R: Threads + Wait + Sync, B: Bench, K: Sink>(
    lab: &Lab<'_, R>,
    groups: u64,
    bench: &mut B,
    out: &mut K,
) -> Status
    requires workers { lab.now.workers ≡ 1 }
    requires groups { (1 ≤ groups) × (groups ≤ MAX_GROUPS) }
    ensures run { PutsSums groups (B.given_back bench.old) (B.given_back bench.new)
        (written_of K.Sink out.old) (written_of K.Sink out.new) result }
    ensures headline { WherePrinted result
        (PrintsSums groups (written_of K.Sink out.old) (written_of K.Sink out.new)) }
{
    run_groups(lab, groups, bench, out)
}
