//! The run of `edge`.
ghost use Rattle.std.specs.Prelude.{◌≡◌, ◌≤◌, ◌⊎◌, All, IfOk, IsErrOf, OnErr, length, map};
ghost use Rattle.std.specs.List.{list_any};
ghost use Rattle.usp_base.specs.Outside.{Rose};
ghost use Rattle.usp_base.specs.declared.fault.Status.TheVariants.{Outside};
ghost use Rattle.usp_tool.specs.Edge.Run.{HasOutcome, IsAnswered, IsEdgeRun, Serves, ServesAll, ServesFor, ServesUnder, SomeDoorRose, ends_by_fault, has_denial, is_denial, TellsAll, scene_of, status_of, wants_memory};
ghost use Rattle.usp_tool.specs.Edge.Words.{words_value};
ghost use Rattle.usp_tool.specs.Edge.Desks.{IsEmpty, desk_by};
ghost use Rattle.usp_tool.specs.Headline.{PrintsNotes, WherePrinted};
ghost use Rattle.usp_tool.specs.Run.{AsksOnce};
ghost use Rattle.usp_tool.specs.declared.limits.TheConstants.{MAX_CONNECTIONS, MAX_WORKERS};

use super::text::text_of_edge;
use super::words::EdgeWords;
use super::{DoorEnd, Service, Worker, clear_shifts, serve_edge};
use crate::memory::NoMemory;
use crate::output::{Outcome, conf_refusal, put_text};
use std::alloc::Global;
use std::sync::Wait;
use std::thread::Threads;
use usp_base::{Clock, Door, Files, LoadFault, Objects, Sink, Status};
use usp_conf::{Conf, read_conf};
use usp_edge::{Edge, Note, Verdict};
use usp_ext::Kit;
use usp_nonce::NonceTable;

/// What `edge` is run with.
#[derive(Drop)]
pub struct Crew<'a, R> {
    /// Starts the threads, and waits for a turn at the nonce table.
    pub rt: &'a R,
    pub alloc: Global,
    /// The tests of the claims that extensions name.
    pub kit: &'a Kit,
}

fn is_denial(note: &Note) -> bool
    ensures { result ≡ is_denial note.now.verdict }
{
    match note.verdict {
        Verdict::Admitted => false,
        Verdict::Denied(_) => true,
    }
}

fn has_denial(notes: &[Note]) -> bool
    ensures { result ≡ list_any (λ note. is_denial note.verdict) notes.now }
{
    notes.iter().any(|note| is_denial(note))
}

fn ends_by_fault(end: Option<DoorEnd>) -> bool
    ensures { result ≡ ends_by_fault end }
{
    match end {
        Some(DoorEnd::DoorFault) => true,
        _ => false,
    }
}

fn wants_memory(end: Option<DoorEnd>) -> bool
    ensures { result ≡ wants_memory end }
{
    match end {
        Some(DoorEnd::NoMemory) => true,
        _ => false,
    }
}

fn any_fault<D: Door, C: Clock, O: Objects>(workers: &[Worker<D, C, O>]) -> bool
    ensures { result ≡ list_any (λ w. ends_by_fault w.shift.end) workers.now }
{
    workers.iter().any(|worker| ends_by_fault(worker.shift.end))
}

fn any_want<D: Door, C: Clock, O: Objects>(workers: &[Worker<D, C, O>]) -> bool
    ensures { result ≡ list_any (λ w. wants_memory w.shift.end) workers.now }
{
    workers.iter().any(|worker| wants_memory(worker.shift.end))
}

fn any_denial<D: Door, C: Clock, O: Objects>(workers: &[Worker<D, C, O>]) -> bool
    ensures { result ≡ list_any (λ w. has_denial w.shift.log.notes.items) workers.now }
{
    workers
        .iter()
        .any(|worker| has_denial(&worker.shift.log.notes))
}

// The status behind the text of what the workers served.
fn status_of<D: Door, C: Clock, O: Objects>(workers: &[Worker<D, C, O>]) -> Status
    ensures { result ≡ status_of (map
        (desk_by D.coming D.given_back D.lines_out D.door_count C.given O.objects O.object_count)
        workers.now) }
{
    if any_fault(workers) {
        Status::Outside
    } else if any_denial(workers) {
        Status::Denials
    } else {
        Status::Done
    }
}

// The text and the status of what the workers served, so many nonce calls.
fn outcome_of<D: Door, C: Clock, O: Objects>(
    alloc: Global,
    name: &[u8],
    calls: u64,
    workers: &[Worker<D, C, O>],
) -> Result<Outcome, NoMemory>
    ensures { IfOk result (λ outcome. TellsAll name.now calls
        (map (desk_by D.coming D.given_back D.lines_out D.door_count C.given O.objects O.object_count) workers.now)
        outcome) }
{
    if any_want(workers) {
        return Err(NoMemory);
    }
    let text = text_of_edge(alloc, name, calls, workers)?;
    Ok(Outcome::new(text, status_of(workers)))
}

// Lets the workers serve under a configuration.
fn serve_under<R: Threads + Wait + Sync, D: Door + Send, C: Clock + Send, O: Objects + Send>(
    crew: &Crew<'_, R>,
    conf: &Conf,
    most: u64,
    workers: &mut [Worker<D, C, O>],
) -> Result<Outcome, NoMemory>
where
    D::Line: Send,
    requires most { (1 ≤ most) × (most ≤ MAX_CONNECTIONS) }
    requires workers { (1 ≤ length workers.old) × (length workers.old ≤ MAX_WORKERS) }
    requires empty { All (λ w. IsEmpty w.shift) workers.old }
    ensures serves { IfOk result (λ outcome. Serves conf.now most
        (map (desk_by D.coming D.given_back D.lines_out D.door_count C.given O.objects O.object_count) workers.old)
        (map (desk_by D.coming D.given_back D.lines_out D.door_count C.given O.objects O.object_count) workers.new)
        outcome) }
    ensures untold { OnErr result (workers.new ≡ workers.old ⊎ ServesAll conf.now most
        (map (desk_by D.coming D.given_back D.lines_out D.door_count C.given O.objects O.object_count) workers.old)
        (map (desk_by D.coming D.given_back D.lines_out D.door_count C.given O.objects O.object_count) workers.new)) }
    ensures empty { All (λ w. IsEmpty w.shift) workers.new }
{
    let table = NonceTable::with_room(crew.alloc, conf.room())?;
    let service = Service {
        edge: Edge {
            alloc: crew.alloc,
            kit: crew.kit,
            conf,
        },
        most,
    };
    let calls = serve_edge(crew.rt, &service, table, workers)?;
    let outcome = outcome_of(crew.alloc, conf.edge().text().as_bytes(), calls, workers);
    clear_shifts(workers);
    outcome
}

// The outcome of the words under a configuration's text. No door is asked where that is refused.
fn outcome_under<R: Threads + Wait + Sync, D: Door + Send, C: Clock + Send, O: Objects + Send>(
    crew: &Crew<'_, R>,
    words: &EdgeWords<'_>,
    text: &[u8],
    workers: &mut [Worker<D, C, O>],
) -> Result<Outcome, NoMemory>
where
    D::Line: Send,
    requires workers { length workers.old ≡ words.now.workers }
    requires empty { All (λ w. IsEmpty w.shift) workers.old }
    ensures has { IfOk result (λ outcome. HasOutcome (words_value words.now) text.now
        (map (desk_by D.coming D.given_back D.lines_out D.door_count C.given O.objects O.object_count) workers.old)
        (map (desk_by D.coming D.given_back D.lines_out D.door_count C.given O.objects O.object_count) workers.new)
        outcome) }
    ensures untold { OnErr result (workers.new ≡ workers.old ⊎ ServesUnder (words_value words.now) text.now
        (map (desk_by D.coming D.given_back D.lines_out D.door_count C.given O.objects O.object_count) workers.old)
        (map (desk_by D.coming D.given_back D.lines_out D.door_count C.given O.objects O.object_count) workers.new)) }
    ensures empty { All (λ w. IsEmpty w.shift) workers.new }
{
    match read_conf(crew.alloc, text) {
        Ok(conf) => serve_under(crew, &conf, words.connections, workers),
        Err(fault) => conf_refusal(crew.alloc, &fault),
    }
}

// The outcome of the words, whose configuration is asked for once. Where it can't be loaded, no door is asked.
fn outcome_for<
    R: Threads + Wait + Sync,
    F: Files,
    D: Door + Send,
    C: Clock + Send,
    O: Objects + Send,
>(
    crew: &Crew<'_, R>,
    words: &EdgeWords<'_>,
    files: &mut F,
    workers: &mut [Worker<D, C, O>],
) -> Result<Outcome, LoadFault>
where
    D::Line: Send,
    requires workers { length workers.old ≡ words.now.workers }
    requires empty { All (λ w. IsEmpty w.shift) workers.old }
    ensures answered { IfOk result (λ outcome. IsAnswered (words_value words.now) (F.files files.old)
        (map (desk_by D.coming D.given_back D.lines_out D.door_count C.given O.objects O.object_count) workers.old)
        (map (desk_by D.coming D.given_back D.lines_out D.door_count C.given O.objects O.object_count) workers.new)
        outcome) }
    ensures door { IfOk result (λ outcome. outcome.status ≡ Outside → SomeDoorRose
        (map (desk_by D.coming D.given_back D.lines_out D.door_count C.given O.objects O.object_count) workers.old)
        (map (desk_by D.coming D.given_back D.lines_out D.door_count C.given O.objects O.object_count) workers.new)) }
    ensures cause { IsErrOf result LoadFault.Failed → Rose (F.file_count files.old) (F.file_count files.new) }
    ensures unloaded { IsErrOf result LoadFault.Failed → workers.new ≡ workers.old }
    ensures untold { IsErrOf result LoadFault.NoMemory → workers.new ≡ workers.old
        ⊎ ServesFor (words_value words.now) (F.files files.old)
        (map (desk_by D.coming D.given_back D.lines_out D.door_count C.given O.objects O.object_count) workers.old)
        (map (desk_by D.coming D.given_back D.lines_out D.door_count C.given O.objects O.object_count) workers.new) }
    ensures asked { AsksOnce (words_value words.now).conf (F.asked files.old) (F.asked files.new) }
    ensures empty { All (λ w. IsEmpty w.shift) workers.new }
{
    let text = files.load(crew.alloc, words.conf)?;
    Ok(outcome_under(crew, words, &text, workers)?)
}

// Lets each worker serve, and tells what was served.
fn run_crew<
    R: Threads + Wait + Sync,
    F: Files,
    D: Door + Send,
    C: Clock + Send,
    O: Objects + Send,
    K: Sink,
>(
    crew: &Crew<'_, R>,
    words: &EdgeWords<'_>,
    files: &mut F,
    workers: &mut [Worker<D, C, O>],
    out: &mut K,
) -> Status
where
    D::Line: Send,
    requires workers { length workers.old ≡ words.now.workers }
    requires empty { All (λ w. IsEmpty w.shift) workers.old }
    ensures run { IsEdgeRun (words_value words.now)
        (scene_of F.Files K.Sink
        (desk_by D.coming D.given_back D.lines_out D.door_count C.given O.objects O.object_count)
        files.old workers.old out.old)
        (scene_of F.Files K.Sink
        (desk_by D.coming D.given_back D.lines_out D.door_count C.given O.objects O.object_count)
        files.new workers.new out.new) result }
    ensures empty { All (λ w. IsEmpty w.shift) workers.new }
{
    match outcome_for(crew, words, files, workers) {
        Ok(outcome) => put_text(out, outcome.text(), outcome.status()),
        Err(LoadFault::Failed) => Status::Outside,
        Err(LoadFault::NoMemory) => Status::Memory,
    }
}

/// `edge CONF ADDRESS WORKERS CONNECTIONS FOLDER`, behind its words: lets each worker serve the connections of its door
/// in a thread of its own, and tells what was served when all of them have ended. What it printed is what
/// the first two sentences of the headline say.
pub fn run_edge<
    R: Threads + Wait + Sync,
    F: Files,
    D: Door + Send,
    C: Clock + Send,
    O: Objects + Send,
    K: Sink,
>(
    crew: &Crew<'_, R>,
    words: &EdgeWords<'_>,
    files: &mut F,
    workers: &mut [Worker<D, C, O>],
    out: &mut K,
) -> Status
where
    D::Line: Send,
    requires workers { length workers.old ≡ words.now.workers }
    requires empty { All (λ w. IsEmpty w.shift) workers.old }
    ensures run { IsEdgeRun (words_value words.now)
        (scene_of F.Files K.Sink
        (desk_by D.coming D.given_back D.lines_out D.door_count C.given O.objects O.object_count)
        files.old workers.old out.old)
        (scene_of F.Files K.Sink
        (desk_by D.coming D.given_back D.lines_out D.door_count C.given O.objects O.object_count)
        files.new workers.new out.new) result }
    ensures headline { WherePrinted result (PrintsNotes (words_value words.now)
        (scene_of F.Files K.Sink
        (desk_by D.coming D.given_back D.lines_out D.door_count C.given O.objects O.object_count)
        files.old workers.old out.old)
        (scene_of F.Files K.Sink
        (desk_by D.coming D.given_back D.lines_out D.door_count C.given O.objects O.object_count)
        files.new workers.new out.new)) }
    ensures empty { All (λ w. IsEmpty w.shift) workers.new }
{
    run_crew(crew, words, files, workers, out)
}
