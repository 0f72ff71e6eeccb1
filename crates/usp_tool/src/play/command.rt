//! The run of `play`.
ghost use Rattle.std.specs.Prelude.{◌≡◌, ◌++◌, ◌⊎◌, List, Result, Ok, IfOk, IsErrOf, OnErr, codes};
ghost use Rattle.std.specs.Fmt.{decimal};
ghost use Rattle.usp_base.specs.Outside.{Rose};
ghost use Rattle.usp_base.specs.declared.fault.Status.TheVariants.{Outside};
ghost use Rattle.usp_tool.specs.Outcome.{refusal};
ghost use Rattle.usp_tool.specs.Play.Run.{HasOutcome, IsAnswered, IsPlayRun, PlaysFor, PlaysUnder, scene_of};
ghost use Rattle.usp_tool.specs.Play.Words.{words_value};
ghost use Rattle.usp_tool.specs.Run.{AsksOnce};

use super::text::play_outcome;
use super::words::PlayWords;
use crate::memory::NoMemory;
use crate::output::{Outcome, push_number, put_text, refusal};
use std::alloc::Global;
use usp_base::{Files, Link, LoadFault, Sink, Status};
use usp_player::{MapFault, play, read_map};

// `refused map` and the number of the line.
fn map_refusal(alloc: Global, line: usize) -> Result<Outcome, NoMemory>
    ensures { IfOk result (λ outcome. outcome ≡ refusal (codes "map " ++ decimal line)) }
{
    let mut what = Vec::new(alloc);
    what.extend_from_slice(b"map ")?;
    push_number(alloc, &mut what, line as u64)?;
    refusal(alloc, &what)
}

// The outcome of the words under a map's text. Nothing is asked of the link where that is refused.
fn outcome_under<L: Link>(
    alloc: Global,
    words: &PlayWords<'_>,
    text: &[u8],
    link: &mut L,
) -> Result<Outcome, NoMemory>
    ensures has { IfOk result (λ outcome. HasOutcome (words_value words.now) text.now
        (L.asks link.old) (L.asks link.new) outcome) }
    ensures cause { IfOk result (λ outcome. outcome.status ≡ Outside
        → Rose (L.link_count link.old) (L.link_count link.new)) }
    ensures untold { OnErr result (L.asks link.new ≡ L.asks link.old
        ⊎ PlaysUnder (words_value words.now) text.now (L.asks link.old) (L.asks link.new)) }
{
    let map = match read_map(alloc, text) {
        Ok(map) => map,
        Err(MapFault::Line { line }) => return map_refusal(alloc, line),
        Err(MapFault::NoMemory) => return Err(NoMemory),
    };
    let played = play(alloc, link, &map, words.uri.as_bytes());
    play_outcome(alloc, &played)
}

// The outcome of the words, whose map is asked for once. Where it can't be loaded, nothing is asked of the link.
fn outcome_for<F: Files, L: Link>(
    alloc: Global,
    words: &PlayWords<'_>,
    files: &mut F,
    link: &mut L,
) -> Result<Outcome, LoadFault>
    ensures answered { IfOk result (λ outcome. IsAnswered (words_value words.now) (F.files files.old)
        (L.asks link.old) (L.asks link.new) outcome) }
    ensures link { IfOk result (λ outcome. outcome.status ≡ Outside
        → Rose (L.link_count link.old) (L.link_count link.new)) }
    ensures cause { IsErrOf result LoadFault.Failed → Rose (F.file_count files.old) (F.file_count files.new) }
    ensures unloaded { IsErrOf result LoadFault.Failed → L.asks link.new ≡ L.asks link.old }
    ensures untold { IsErrOf result LoadFault.NoMemory → L.asks link.new ≡ L.asks link.old
        ⊎ PlaysFor (words_value words.now) (F.files files.old) (L.asks link.old) (L.asks link.new) }
    ensures asked { AsksOnce (words_value words.now).map (F.asked files.old) (F.asked files.new) }
{
    let text = files.load(alloc, words.map)?;
    Ok(outcome_under(alloc, words, &text, link)?)
}

/// `play URI MAP`, behind its words: plays the playlist over the link, and tells which requests were answered and how
/// it ended. The map is read before the URI is looked at.
pub fn run_play<F: Files, L: Link, K: Sink>(
    alloc: Global,
    words: &PlayWords<'_>,
    files: &mut F,
    link: &mut L,
    out: &mut K,
) -> Status
    ensures { IsPlayRun (words_value words.now)
        (scene_of F.Files L.Link K.Sink files.old link.old out.old)
        (scene_of F.Files L.Link K.Sink files.new link.new out.new) result }
{
    match outcome_for(alloc, words, files, link) {
        Ok(outcome) => put_text(out, outcome.text(), outcome.status()),
        Err(LoadFault::Failed) => Status::Outside,
        Err(LoadFault::NoMemory) => Status::Memory,
    }
}
