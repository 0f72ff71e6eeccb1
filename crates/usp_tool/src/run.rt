//! The top call: a command over what is outside.
ghost use Rattle.std.specs.Prelude.{◌≡◌, ◌⊎◌, All, map, string_bytes, length, List, ℕ, Some, IfOk, IfSome, IsErrOf};
ghost use Rattle.std.specs.Process.{exit_status};
ghost use Rattle.usp_base.specs.Outside.{Rose, file_of};
ghost use Rattle.usp_base.specs.Statuses.{status_number};
ghost use Rattle.usp_base.specs.declared.fault.Status.{Status};
ghost use Rattle.usp_base.specs.declared.files.MemoryFile.{MemoryFile};
ghost use Rattle.usp_tool.specs.Answers.{HasOutcome, IsRefusedUnread};
ghost use Rattle.usp_tool.specs.Edge.Words.{edge_of};
ghost use Rattle.usp_tool.specs.Edge.Desks.{IsEmpty, desk_by};
ghost use Rattle.usp_tool.specs.Headline.{Headline, PrintsChecks, WherePrinted};
ghost use Rattle.usp_tool.specs.Outcome.{IsOwn};
ghost use Rattle.usp_tool.specs.Program.{IsProgramRun, scene_of};
ghost use Rattle.usp_tool.specs.Run.{AsksAtMost, IsAnswered, ReadsWhole, IsRun, world_of};
ghost use Rattle.usp_tool.specs.Words as words_of;
ghost use Rattle.usp_tool.specs.Words.{check, conf_name, in_bytes};

use crate::edge::{Crew, Worker, edge_of, run_edge};
use crate::input::read_up_to;
use crate::job::{job_of, work};
use crate::lab::{groups_of, run_lab, run_lab_from, workers_of};
use crate::limits::MAX_INPUT;
use crate::output::{Outcome, conf_refusal, put_text, refusal};
use crate::play::{play_of, run_play};
use crate::words::{Command, USAGE, command_of};
use std::alloc::Global;
use std::process::ExitCode;
use std::sync::Wait;
use std::thread::Threads;
use usp_base::{Clock, Door, Files, Link, LoadFault, Objects, Sink, Source, Status};
use usp_conf::read_conf;
use usp_ext::Kit;
use usp_lab::{Bench, Lab};

/// What commands are run with.
#[derive(Drop)]
pub struct Means<'a> {
    pub alloc: Global,
    /// The tests of the claims that extensions name.
    pub kit: &'a Kit,
}

/// What the program is run over.
#[derive(Drop)]
pub struct Outside<F, S, K, D, C, O, L, B> {
    pub files: F,
    pub input: S,
    pub out: K,
    /// The workers of `edge`, whose shifts are empty: as many as its words ask for.
    pub workers: Vec<Worker<D, C, O>>,
    /// What `play` asks.
    pub link: L,
    /// Where the connections of `lab` come from.
    pub bench: B,
    /// The tests of the claims that extensions name.
    pub kit: Kit,
}

// The outcome of a command under a configuration's text. The input is read only where that is accepted.
fn outcome_under<S: Source>(
    means: &Means<'_>,
    command: &Command<'_>,
    text: &[u8],
    input: &mut S,
) -> Result<Outcome, LoadFault>
    ensures answers { IfOk result (λ outcome.
        HasOutcome (in_bytes command.now) text.now (S.left input.old) outcome) }
    ensures own { IfOk result (λ outcome. IsOwn outcome.status) }
    ensures cause { IsErrOf result LoadFault.Failed
        → Rose (S.read_count input.old) (S.read_count input.new) }
    ensures whole { IfOk result (λ outcome. ReadsWhole outcome.status (S.ended input.new)) }
    ensures unread { IsRefusedUnread (in_bytes command.now) text.now → input.new ≡ input.old }
{
    let alloc = means.alloc;
    let conf = match read_conf(alloc, text) {
        Ok(conf) => conf,
        Err(fault) => return Ok(conf_refusal(alloc, &fault)?),
    };
    let Some(job) = job_of(command, &conf) else {
        return Ok(refusal(alloc, b"key")?);
    };
    let bytes = read_up_to(alloc, input, MAX_INPUT)?;
    Ok(work(alloc, means.kit, &job, &bytes)?)
}

// The outcome of a command, whose configuration is asked for once.
fn outcome_of<F: Files, S: Source>(
    means: &Means<'_>,
    command: &Command<'_>,
    files: &mut F,
    input: &mut S,
) -> Result<Outcome, LoadFault>
    ensures answered { IfOk result (λ outcome.
        IsAnswered (in_bytes command.now) (F.files files.old) (S.left input.old) outcome) }
    ensures own { IfOk result (λ outcome. IsOwn outcome.status) }
    ensures cause { IsErrOf result LoadFault.Failed
        → Rose (F.file_count files.old) (F.file_count files.new)
        ⊎ Rose (S.read_count input.old) (S.read_count input.new) }
    ensures asked { AsksAtMost (Some (in_bytes command.now))
        (F.asked files.old) (F.asked files.new) }
    ensures whole { IfOk result (λ outcome. ReadsWhole outcome.status (S.ended input.new)) }
    ensures unread { (all : List MemoryFile) (conf : List ℕ) → F.files files.old ≡ Some all
        → file_of all (conf_name (in_bytes command.now)) ≡ Some conf
        → IsRefusedUnread (in_bytes command.now) conf → input.new ≡ input.old }
{
    let text = files.load(means.alloc, command.conf())?;
    outcome_under(means, command, &text, input)
}

// Runs a command over lines, or prints the usage line.
fn run_lines<F: Files, S: Source, K: Sink>(
    means: &Means<'_>,
    words: &[String],
    files: &mut F,
    input: &mut S,
    out: &mut K,
) -> Status
    ensures { IsRun (map (λ w. string_bytes w) words.now)
        (world_of F.Files S.Source K.Sink files.old input.old out.old)
        (world_of F.Files S.Source K.Sink files.new input.new out.new) result }
{
    let Some(command) = command_of(words) else {
        return put_text(out, USAGE, Status::Words);
    };
    match outcome_of(means, &command, files, input) {
        Ok(outcome) => put_text(out, outcome.text(), outcome.status()),
        Err(LoadFault::Failed) => Status::Outside,
        Err(LoadFault::NoMemory) => Status::Memory,
    }
}

/// `check CONF` and `sign CONF KID` (the words are those behind the program's name).
/// What `check` printed is what the first two sentences of the headline say.
pub fn run_tool<F: Files, S: Source, K: Sink>(
    means: &Means<'_>,
    words: &[String],
    files: &mut F,
    input: &mut S,
    out: &mut K,
) -> Status
    ensures run { IsRun (map (λ w. string_bytes w) words.now)
        (world_of F.Files S.Source K.Sink files.old input.old out.old)
        (world_of F.Files S.Source K.Sink files.new input.new out.new) result }
    ensures headline { (name : List ℕ) → words_of.command_of (map (λ w. string_bytes w) words.now) ≡ Some (check name)
        → WherePrinted result (PrintsChecks name
        (world_of F.Files S.Source K.Sink files.old input.old out.old)
        (world_of F.Files S.Source K.Sink files.new input.new out.new)) }
{
    run_lines(means, words, files, input, out)
}

// Reads the words and runs their command.
fn obey<
    R: Threads + Wait + Sync,
    F: Files,
    S: Source,
    K: Sink,
    D: Door + Send,
    C: Clock + Send,
    O: Objects + Send,
    L: Link,
    B: Bench,
>(rt: &R, alloc: Global, words: &[String], outside: &mut Outside<F, S, K, D, C, O, L, B>) -> Status
where
    D::Line: Send,
    requires workers { IfSome (edge_of (map (λ w. string_bytes w) words.now)) (λ of.
        length outside.old.workers.items ≡ of.workers) }
    requires empty { All (λ w. IsEmpty w.shift) outside.old.workers.items }
    ensures run { IsProgramRun (map (λ w. string_bytes w) words.now)
        (scene_of F.Files S.Source K.Sink
        (desk_by D.coming D.given_back D.lines_out D.door_count C.given O.objects O.object_count)
        L.Link B.given_back outside.old.files outside.old.input outside.old.out outside.old.workers.items
        outside.old.link outside.old.bench)
        (scene_of F.Files S.Source K.Sink
        (desk_by D.coming D.given_back D.lines_out D.door_count C.given O.objects O.object_count)
        L.Link B.given_back outside.new.files outside.new.input outside.new.out outside.new.workers.items
        outside.new.link outside.new.bench) result }
    ensures empty { All (λ w. IsEmpty w.shift) outside.new.workers.items }
{
    let kit = &outside.kit;
    if let Some(words) = edge_of(words) {
        let crew = Crew { rt, alloc, kit };
        return run_edge(
            &crew,
            &words,
            &mut outside.files,
            &mut outside.workers,
            &mut outside.out,
        );
    }
    if let Some(words) = play_of(words) {
        return run_play(
            alloc,
            &words,
            &mut outside.files,
            &mut outside.link,
            &mut outside.out,
        );
    }
    if let Some(workers) = workers_of(words) {
        let lab = Lab {
            rt,
            alloc,
            kit,
            workers: workers as usize,
        };
        return run_lab(
            &lab,
            &mut outside.files,
            &mut outside.input,
            &mut outside.bench,
            &mut outside.out,
        );
    }
    if let Some(groups) = groups_of(words) {
        let lab = Lab {
            rt,
            alloc,
            kit,
            workers: 1,
        };
        return run_lab_from(&lab, groups, &mut outside.bench, &mut outside.out);
    }
    let means = Means { alloc, kit };
    run_tool(
        &means,
        words,
        &mut outside.files,
        &mut outside.input,
        &mut outside.out,
    )
}

/// The whole program over its outside: reads the words and runs their command. What it printed is what the headline
/// says.
pub fn run<
    R: Threads + Wait + Sync,
    F: Files,
    S: Source,
    K: Sink,
    D: Door + Send,
    C: Clock + Send,
    O: Objects + Send,
    L: Link,
    B: Bench,
>(rt: &R, alloc: Global, words: &[String], outside: &mut Outside<F, S, K, D, C, O, L, B>) -> Status
where
    D::Line: Send,
    requires workers { IfSome (edge_of (map (λ w. string_bytes w) words.now)) (λ of.
        length outside.old.workers.items ≡ of.workers) }
    requires empty { All (λ w. IsEmpty w.shift) outside.old.workers.items }
    ensures run { IsProgramRun (map (λ w. string_bytes w) words.now)
        (scene_of F.Files S.Source K.Sink
        (desk_by D.coming D.given_back D.lines_out D.door_count C.given O.objects O.object_count)
        L.Link B.given_back outside.old.files outside.old.input outside.old.out outside.old.workers.items
        outside.old.link outside.old.bench)
        (scene_of F.Files S.Source K.Sink
        (desk_by D.coming D.given_back D.lines_out D.door_count C.given O.objects O.object_count)
        L.Link B.given_back outside.new.files outside.new.input outside.new.out outside.new.workers.items
        outside.new.link outside.new.bench) result }
    ensures headline { Headline (map (λ w. string_bytes w) words.now)
        (scene_of F.Files S.Source K.Sink
        (desk_by D.coming D.given_back D.lines_out D.door_count C.given O.objects O.object_count)
        L.Link B.given_back outside.old.files outside.old.input outside.old.out outside.old.workers.items
        outside.old.link outside.old.bench)
        (scene_of F.Files S.Source K.Sink
        (desk_by D.coming D.given_back D.lines_out D.door_count C.given O.objects O.object_count)
        L.Link B.given_back outside.new.files outside.new.input outside.new.out outside.new.workers.items
        outside.new.link outside.new.bench) result }
    ensures empty { All (λ w. IsEmpty w.shift) outside.new.workers.items }
{
    obey(rt, alloc, words, outside)
}

/// The same, answering the exit code, which is the number of the status. `main` makes the real objects, calls it,
/// and ends with what it answers.
pub fn run_to_the_end<
    R: Threads + Wait + Sync,
    F: Files,
    S: Source,
    K: Sink,
    D: Door + Send,
    C: Clock + Send,
    O: Objects + Send,
    L: Link,
    B: Bench,
>(
    rt: &R,
    alloc: Global,
    words: &[String],
    outside: &mut Outside<F, S, K, D, C, O, L, B>,
) -> ExitCode
where
    D::Line: Send,
    requires workers { IfSome (edge_of (map (λ w. string_bytes w) words.now)) (λ of.
        length outside.old.workers.items ≡ of.workers) }
    requires empty { All (λ w. IsEmpty w.shift) outside.old.workers.items }
    ensures { (status : Status) × (exit_status result ≡ status_number status)
        × IsProgramRun (map (λ w. string_bytes w) words.now)
        (scene_of F.Files S.Source K.Sink
        (desk_by D.coming D.given_back D.lines_out D.door_count C.given O.objects O.object_count)
        L.Link B.given_back outside.old.files outside.old.input outside.old.out outside.old.workers.items
        outside.old.link outside.old.bench)
        (scene_of F.Files S.Source K.Sink
        (desk_by D.coming D.given_back D.lines_out D.door_count C.given O.objects O.object_count)
        L.Link B.given_back outside.new.files outside.new.input outside.new.out outside.new.workers.items
        outside.new.link outside.new.bench) status
        × Headline (map (λ w. string_bytes w) words.now)
        (scene_of F.Files S.Source K.Sink
        (desk_by D.coming D.given_back D.lines_out D.door_count C.given O.objects O.object_count)
        L.Link B.given_back outside.old.files outside.old.input outside.old.out outside.old.workers.items
        outside.old.link outside.old.bench)
        (scene_of F.Files S.Source K.Sink
        (desk_by D.coming D.given_back D.lines_out D.door_count C.given O.objects O.object_count)
        L.Link B.given_back outside.new.files outside.new.input outside.new.out outside.new.workers.items
        outside.new.link outside.new.bench) status }
{
    run(rt, alloc, words, outside).exit_code()
}
