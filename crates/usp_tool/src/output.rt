//! What is printed, and how it ends.
ghost use Rattle.std.specs.Prelude.{◌≡◌, ◌++◌, IfOk, OnOk, Some};
ghost use Rattle.std.specs.Fmt.{decimal};
ghost use Rattle.std.specs.Option.{option_copied};
ghost use Rattle.usp_tool.specs.Outcome.{IsConfRefusal, fault_name, line_refusal, refusal};
ghost use Rattle.usp_tool.specs.Run.{Wrote};

use crate::memory::NoMemory;
use std::alloc::Global;
use std::marker::Model;
use usp_base::{Sink, Status};
use usp_conf::ConfFault;

/// A text, and the status behind it.
#[derive(Drop)]
pub struct Outcome {
    text: Vec<u8>,
    status: Status,
}

impl Model for Outcome {
    ghost use Rattle.usp_tool.specs.Outcome.{Outcome};

    ghost Value = { Outcome };

    ghost view = { λ o. record { text = o.text.items; status = o.status } };
}

impl Outcome {
    pub fn new(text: Vec<u8>, status: Status) -> Outcome
        ensures { result ≡ record { text = text.items; status = status } }
    {
        Outcome { text, status }
    }

    pub fn text(&self) -> &[u8]
        ensures { result.now ≡ self.now.text }
    {
        &self.text
    }

    pub fn status(&self) -> Status
        ensures { result ≡ self.now.status }
    {
        self.status
    }
}

/// Puts a text, and answers the status behind it.
pub fn put_text<K: Sink>(out: &mut K, text: &[u8], status: Status) -> Status
    ensures { Wrote (K.told out.old) (K.told out.new) (K.put_count out.old) (K.put_count out.new)
        text.now status result }
{
    match out.put(text) {
        Ok(()) => status,
        Err(_) => Status::Outside,
    }
}

/// `refused` and what is refused.
pub fn refusal(alloc: Global, what: &[u8]) -> Result<Outcome, NoMemory>
    ensures { IfOk result (λ outcome. outcome ≡ refusal what.now) }
{
    let mut text = Vec::new(alloc);
    text.extend_from_slice(b"refused ")?;
    text.extend_from_slice(what)?;
    text.push(b'\n')?;
    Ok(Outcome {
        text,
        status: Status::Refused,
    })
}

/// Puts a number behind a text.
pub fn push_number(alloc: Global, text: &mut Vec<u8>, number: u64) -> Result<(), NoMemory>
    ensures { OnOk result (text.new.items ≡ text.old.items ++ decimal number) }
{
    let digits = number.to_string(alloc)?;
    text.extend_from_slice(digits.as_bytes())?;
    Ok(())
}

/// Puts the line that refuses a line of the input behind a text.
#[tactic(auto, using(crate::proofs::Texts::line_refusal_text))]
pub fn push_line_refusal(alloc: Global, text: &mut Vec<u8>, number: u64) -> Result<(), NoMemory>
    ensures { OnOk result (text.new.items ≡ text.old.items ++ (line_refusal number).text) }
{
    text.extend_from_slice(b"refused line ")?;
    push_number(alloc, text, number)?;
    text.push(b'\n')?;
    Ok(())
}

// What is named of a configuration that is refused. None exactly at want of memory.
fn fault_name(fault: &ConfFault) -> Option<&[u8]>
    ensures { option_copied result ≡ fault_name fault.now }
{
    match fault {
        ConfFault::Json => Some(b"json"),
        ConfFault::Missing { member } => Some(member.name().as_bytes()),
        ConfFault::Kind { member } => Some(member.name().as_bytes()),
        ConfFault::Range { member } => Some(member.name().as_bytes()),
        ConfFault::ShortKey { kid } => Some(kid.text().as_bytes()),
        ConfFault::Repeat { member } => Some(member.name().as_bytes()),
        ConfFault::NoMemory => None,
    }
}

/// `refused conf` and the member or key that is at fault.
pub fn conf_refusal(alloc: Global, fault: &ConfFault) -> Result<Outcome, NoMemory>
    ensures { IfOk result (λ outcome. IsConfRefusal fault.now outcome) }
{
    let Some(name) = fault_name(fault) else {
        return Err(NoMemory);
    };
    let mut what = Vec::new(alloc);
    what.extend_from_slice(b"conf ")?;
    what.extend_from_slice(name)?;
    refusal(alloc, &what)
}
