//! The run of `lab`.
ghost use Rattle.std.specs.Prelude.{◌≡◌, ◌≤◌, ◌⊎◌, false, List, IfOk, IsErrOf};
ghost use Rattle.usp_base.specs.Lines.{lines_of};
ghost use Rattle.usp_base.specs.Outside.{Rose};
ghost use Rattle.usp_lab.specs.declared.limits.TheConstants.{MAX_WORKERS};
ghost use Rattle.usp_script.specs.Reading.{AreFiles, AsksInOrder, Loaded, Unloads};
ghost use Rattle.usp_tool.specs.Headline.{PrintsRun, WherePrinted};
ghost use Rattle.usp_tool.specs.Input.{is_long_input};
ghost use Rattle.usp_tool.specs.Lab.Run.{AsksFiles, HasOutcome, IsAnswered, IsLabRun, StopsLoading, TellsRun, scene_of};
ghost use Rattle.usp_tool.specs.Outcome.{IsOwn, line_refusal};
ghost use Rattle.usp_tool.specs.Run.{ReadsWhole};

use super::run::{ran, status_of};
use crate::input::{is_long_input, read_up_to};
use crate::limits::MAX_INPUT;
use crate::memory::NoMemory;
use crate::output::{Outcome, push_line_refusal, put_text, refusal};
use std::alloc::Global;
use std::sync::Wait;
use std::thread::Threads;
use usp_base::{Files, LoadFault, Sink, Source, Status};
use usp_lab::{Bench, Lab, text_of};
use usp_script::{Script, ScriptFault, read_script};

// The refusal of a line of a script.
fn refused_line(alloc: Global, number: u64) -> Result<Outcome, NoMemory>
    ensures { IfOk result (λ outcome. outcome ≡ line_refusal number) }
{
    let mut text = Vec::new(alloc);
    push_line_refusal(alloc, &mut text, number)?;
    Ok(Outcome::new(text, Status::Refused))
}

// The outcome of a script.
fn outcome_of<R: Threads + Wait + Sync, B: Bench>(
    lab: &Lab<'_, R>,
    script: &Script,
    bench: &mut B,
) -> Result<Outcome, NoMemory>
    requires { (1 ≤ lab.now.workers) × (lab.now.workers ≤ MAX_WORKERS) }
    ensures tells { IfOk result (λ outcome. TellsRun script.now lab.now.workers
        (B.given_back bench.old) (B.given_back bench.new) outcome) }
    ensures own { IfOk result (λ outcome. IsOwn outcome.status) }
{
    let report = ran(lab, script, bench)?;
    let text = text_of(lab.alloc, script, &report)?;
    Ok(Outcome::new(text, status_of(&report)))
}

// The outcome of an input that is not too long.
fn outcome_under<R: Threads + Wait + Sync, F: Files, B: Bench>(
    lab: &Lab<'_, R>,
    input: &[u8],
    files: &mut F,
    bench: &mut B,
) -> Result<Outcome, LoadFault>
    requires workers { (1 ≤ lab.now.workers) × (lab.now.workers ≤ MAX_WORKERS) }
    requires short { is_long_input input.now ≡ false }
    ensures has { IfOk result (λ outcome. (loads : List Loaded) × AreFiles (F.files files.old) loads
        × HasOutcome lab.now.workers input.now loads (B.given_back bench.old) (B.given_back bench.new) outcome) }
    ensures own { IfOk result (λ outcome. IsOwn outcome.status) }
    ensures cause { IsErrOf result LoadFault.Failed
        → Rose (F.file_count files.old) (F.file_count files.new) }
    ensures stopped { IsErrOf result LoadFault.Failed
        → Unloads (F.files files.old) (lines_of input.now) (F.asked files.old) (F.asked files.new) }
    ensures unbegun { IsErrOf result LoadFault.Failed → bench.new ≡ bench.old }
    ensures asked { AsksInOrder (lines_of input.now) (F.asked files.old) (F.asked files.new) }
{
    match read_script(lab.alloc, files, input) {
        Ok(script) => Ok(outcome_of(lab, &script, bench)?),
        Err(ScriptFault::Line { number }) => Ok(refused_line(lab.alloc, number)?),
        Err(ScriptFault::Unloaded) => Err(LoadFault::Failed),
        Err(ScriptFault::NoMemory) => Err(LoadFault::NoMemory),
    }
}

// The outcome of the input, which is read to its end first.
fn outcome_for<R: Threads + Wait + Sync, F: Files, S: Source, B: Bench>(
    lab: &Lab<'_, R>,
    files: &mut F,
    input: &mut S,
    bench: &mut B,
) -> Result<Outcome, LoadFault>
    requires { (1 ≤ lab.now.workers) × (lab.now.workers ≤ MAX_WORKERS) }
    ensures answered { IfOk result (λ outcome. IsAnswered lab.now.workers (F.files files.old) (S.left input.old)
        (B.given_back bench.old) (B.given_back bench.new) outcome) }
    ensures own { IfOk result (λ outcome. IsOwn outcome.status) }
    ensures cause { IsErrOf result LoadFault.Failed → Rose (F.file_count files.old) (F.file_count files.new)
        ⊎ Rose (S.read_count input.old) (S.read_count input.new) }
    ensures stopped { IsErrOf result LoadFault.Failed
        → StopsLoading (F.files files.old) (S.left input.old) (F.asked files.old) (F.asked files.new)
        ⊎ Rose (S.read_count input.old) (S.read_count input.new) }
    ensures unbegun { IsErrOf result LoadFault.Failed → bench.new ≡ bench.old }
    ensures asked { AsksFiles (S.left input.old) (F.asked files.old) (F.asked files.new) }
    ensures whole { IfOk result (λ outcome. ReadsWhole outcome.status (S.ended input.new)) }
{
    let bytes = read_up_to(lab.alloc, input, MAX_INPUT)?;
    if is_long_input(&bytes) {
        return Ok(refusal(lab.alloc, b"input")?);
    }
    outcome_under(lab, &bytes, files, bench)
}

// Runs the script of the input, and tells the run.
fn run_input<R: Threads + Wait + Sync, F: Files, S: Source, B: Bench, K: Sink>(
    lab: &Lab<'_, R>,
    files: &mut F,
    input: &mut S,
    bench: &mut B,
    out: &mut K,
) -> Status
    requires { (1 ≤ lab.now.workers) × (lab.now.workers ≤ MAX_WORKERS) }
    ensures { IsLabRun lab.now.workers
        (scene_of F.Files S.Source K.Sink B.given_back files.old input.old out.old bench.old)
        (scene_of F.Files S.Source K.Sink B.given_back files.new input.new out.new bench.new) result }
{
    match outcome_for(lab, files, input, bench) {
        Ok(outcome) => put_text(out, outcome.text(), outcome.status()),
        Err(LoadFault::Failed) => Status::Outside,
        Err(LoadFault::NoMemory) => Status::Memory,
    }
}

/// `lab WORKERS`, behind its words: runs the script of the input, and tells the run. What it printed is what the
/// headline says.
pub fn run_lab<R: Threads + Wait + Sync, F: Files, S: Source, B: Bench, K: Sink>(
    lab: &Lab<'_, R>,
    files: &mut F,
    input: &mut S,
    bench: &mut B,
    out: &mut K,
) -> Status
    requires { (1 ≤ lab.now.workers) × (lab.now.workers ≤ MAX_WORKERS) }
    ensures run { IsLabRun lab.now.workers
        (scene_of F.Files S.Source K.Sink B.given_back files.old input.old out.old bench.old)
        (scene_of F.Files S.Source K.Sink B.given_back files.new input.new out.new bench.new) result }
    ensures headline { WherePrinted result (PrintsRun lab.now.workers
        (scene_of F.Files S.Source K.Sink B.given_back files.old input.old out.old bench.old)
        (scene_of F.Files S.Source K.Sink B.given_back files.new input.new out.new bench.new)) }
{
    run_input(lab, files, input, bench, out)
}
