//! A script that is run, and the status behind its text.
ghost use Rattle.std.specs.Prelude.{◌≡◌, ◌≤◌, ℕ, length, IfOk};
ghost use Rattle.usp_lab.specs.Entries.{Run};
ghost use Rattle.usp_lab.specs.LabText.{has_denial};
ghost use Rattle.usp_lab.specs.Reports.{IsReport};
ghost use Rattle.usp_lab.specs.declared.limits.TheConstants.{MAX_WORKERS};
ghost use Rattle.usp_tool.specs.Lab.Runs.{Ran, status_by};

use crate::memory::NoMemory;
use std::sync::Wait;
use std::thread::Threads;
use usp_base::Status;
use usp_lab::{Bench, Lab, Report, has_denial, run_script};
use usp_script::Script;

/// Runs a script.
pub fn ran<R: Threads + Wait + Sync, B: Bench>(
    lab: &Lab<'_, R>,
    script: &Script,
    bench: &mut B,
) -> Result<Report, NoMemory>
    requires { (1 ≤ lab.now.workers) × (lab.now.workers ≤ MAX_WORKERS) }
    ensures { IfOk result (λ report.
        (ran : Ran script.now lab.now.workers (B.given_back bench.old) (B.given_back bench.new))
        × IsReport (length script.now.edges) ran.run report) }
{
    let _ = script.edges();
    Ok(run_script(lab, script, bench)?)
}

/// The status behind the text of a run.
pub fn status_of(report: &Report) -> Status
    ensures { (edges : ℕ) (run : Run) → IsReport edges run report.now → result ≡ status_by (has_denial run) }
{
    if has_denial(report) {
        Status::Denials
    } else {
        Status::Done
    }
}
