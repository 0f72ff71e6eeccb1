//! What `play` prints.
ghost use Rattle.std.specs.Prelude.{◌≡◌, ◌==◌, ◌++◌, ◌∷◌, [], IfOk, OnOk, codes, filter, length};
ghost use Rattle.usp_base.specs.Lines.{line_feed};
ghost use Rattle.usp_tool.specs.Play.Text.{fault_name, fault_status, outcome_with, play_outcome, segments_in, step_line, step_lines};

use crate::memory::NoMemory;
use crate::output::{Outcome, push_number};
use std::alloc::Global;
use usp_base::Status;
use usp_player::{PlayFault, Step, Transcript};

// The line of one request.
#[tactic(auto, using(crate::proofs::Texts::step_text))]
fn push_step(alloc: Global, text: &mut Vec<u8>, number: u64, step: &Step) -> Result<(), NoMemory>
    ensures { OnOk result (text.new.items ≡ text.old.items ++ step_line number step.now) }
{
    push_number(alloc, text, number)?;
    text.push(b' ')?;
    push_number(alloc, text, u64::from(step.status))?;
    text.push(b' ')?;
    text.extend_from_slice(step.authority.bytes())?;
    text.push(b' ')?;
    text.extend_from_slice(step.path.bytes())?;
    text.push(b'\n')?;
    Ok(())
}

// The lines of all requests.
fn push_steps(alloc: Global, text: &mut Vec<u8>, steps: &[Step]) -> Result<(), NoMemory>
    ensures { OnOk result (text.new.items ≡ text.old.items ++ step_lines 1 steps.now) }
{
    'steps: for (i, step) in steps.iter().enumerate() {
        push_step(alloc, text, i as u64 + 1, step)?;
    }
    Ok(())
}

// How many requests were answered with 200.
fn answered(steps: &[Step]) -> usize
    ensures { result ≡ length (filter (λ step. step.status == 200) steps.now) }
{
    steps.iter().filter(|step| step.status == 200).count()
}

// How many segments were played.
fn segments_in(steps: &[Step]) -> usize
    ensures { result ≡ segments_in steps.now }
{
    answered(steps).saturating_sub(1)
}

fn fault_name(fault: PlayFault) -> &'static [u8]
    ensures { result.now ≡ fault_name fault }
{
    match fault {
        PlayFault::BadUri => b"BadUri",
        PlayFault::NoAddress => b"NoAddress",
        PlayFault::LinkFault => b"LinkFault",
        PlayFault::BadReply => b"BadReply",
        PlayFault::NoLocation => b"NoLocation",
        PlayFault::TooManyHops => b"TooManyHops",
        PlayFault::Denied => b"Denied",
        PlayFault::List(_) => b"List",
        PlayFault::NoMemory => b"NoMemory",
    }
}

fn fault_status(fault: PlayFault) -> Status
    ensures { result ≡ fault_status fault }
{
    match fault {
        PlayFault::Denied => Status::Denials,
        PlayFault::LinkFault => Status::Outside,
        PlayFault::NoMemory => Status::Memory,
        _ => Status::Refused,
    }
}

// The lines of the requests, the last line, and the status.
fn outcome_with(
    alloc: Global,
    steps: &[Step],
    last: &[u8],
    status: Status,
) -> Result<Outcome, NoMemory>
    ensures { IfOk result (λ outcome. outcome ≡ outcome_with steps.now last.now status) }
{
    let mut text = Vec::new(alloc);
    push_steps(alloc, &mut text, steps)?;
    text.extend_from_slice(last)?;
    text.push(b'\n')?;
    Ok(Outcome::new(text, status))
}

/// The text of what was played, and the status behind it.
pub fn play_outcome(
    alloc: Global,
    played: &Result<Transcript, (Transcript, PlayFault)>,
) -> Result<Outcome, NoMemory>
    ensures { IfOk result (λ outcome. outcome ≡ play_outcome played.now) }
{
    let mut last = Vec::new(alloc);
    match played {
        Ok(transcript) => {
            last.extend_from_slice(b"played ")?;
            push_number(alloc, &mut last, segments_in(transcript.steps()) as u64)?;
            outcome_with(alloc, transcript.steps(), &last, Status::Done)
        }
        Err((transcript, fault)) => {
            last.extend_from_slice(b"stopped ")?;
            last.extend_from_slice(fault_name(*fault))?;
            outcome_with(alloc, transcript.steps(), &last, fault_status(*fault))
        }
    }
}
