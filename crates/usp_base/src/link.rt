//! Connections that the program opens itself.
ghost use Rattle.std.specs.Prelude.{◌≡◌, ◌≤◌, List, [], ℕ, Option, length, IfOk, IfSome, IsErrOf};
ghost use Rattle.usp_base.specs.Counts.{HasCause};
ghost use Rattle.usp_base.specs.Links.{asked_with, asks_after};
ghost use Rattle.usp_base.specs.declared.link.Asked.{Asked};
ghost use Rattle.usp_base.specs.declared.limits.TheConstants.{LONGEST_ANSWER};

use crate::limits::LONGEST_ANSWER;
use crate::{Failures, LoadFault, Octets};
use std::alloc::{AllocError, Global};

/// Where the requests of a player go.
pub trait Link {
    /// The asks so far, where they are told.
    ghost asks: { Self → Option (List Asked) };

    /// How often an ask has failed.
    ghost link_count: { Self → ℕ };

    /// Sends the head to the address, and answers all bytes up to the end of the connection. More than
    /// `LONGEST_ANSWER` bytes are `Failed`.
    fn ask(&mut self, alloc: Global, address: &[u8], head: &[u8]) -> Result<Vec<u8>, LoadFault>
        ensures told { asks self.new
            ≡ asks_after (λ bytes. bytes.items) (asks self.old) address.now head.now result }
        ensures short { IfOk result (λ bytes. length bytes.items ≤ LONGEST_ANSWER) }
        ensures cause { HasCause (link_count self.old) (link_count self.new) (IsErrOf result LoadFault.Failed) };

    /// How often an ask has failed.
    fn link_faults(&self) -> u64
        ensures { result ≡ link_count self.now };
}

/// One ask of a link in memory. No answer says that it failed.
#[derive(Drop)]
pub struct Asked {
    pub address: Octets,
    pub head: Octets,
    pub answer: Option<Octets>,
}

// An ask with its answer, its address and head copied.
fn note_of(
    alloc: Global,
    address: &[u8],
    head: &[u8],
    answer: Option<Octets>,
) -> Result<Asked, AllocError>
    ensures { IfOk result (λ asked. asked ≡ asked_with address.now head.now answer) }
{
    let address = Octets::of(address.to_vec(alloc)?);
    let head = Octets::of(head.to_vec(alloc)?);
    Ok(Asked {
        address,
        head,
        answer,
    })
}

/// A link in memory that gives the answers of a list in order. Some asks fail, and so does one for which
/// no answer is left or whose answer is too long.
#[derive(Drop)]
pub struct ListedLink {
    alloc: Global,
    answers: Vec<Octets>,
    at: usize,
    asks: Vec<Asked>,
    failures: Failures,
}

impl ListedLink {
    ghost use Rattle.usp_base.specs.Failing.{none_yet};
    ghost use Rattle.usp_base.specs.LinkMemory.{listed_ask_failures, listed_asks, listed_answers};

    /// The asks whose places, from 0, are in `failing` fail, and use up no answer.
    pub fn new(alloc: Global, answers: Vec<Octets>, failing: Vec<u64>) -> ListedLink
        ensures answers { listed_answers result ≡ answers.items }
        ensures asks { listed_asks result ≡ [] }
        ensures failing { listed_ask_failures result ≡ none_yet failing.items }
    {
        ListedLink {
            alloc,
            answers,
            at: 0,
            asks: Vec::new(alloc),
            failures: Failures::new(failing),
        }
    }

    /// The asks so far, in order.
    pub fn asks(&self) -> &[Asked]
        ensures { result.now ≡ listed_asks self.now }
    {
        &self.asks
    }
}

// The next answer, where it is short enough.
fn next_answer(answers: &[Octets], at: usize) -> Option<&[u8]>
    ensures { IfSome result (λ answer. length answer.now ≤ LONGEST_ANSWER) }
{
    let answer = answers.get(at)?.bytes();
    if answer.len() <= LONGEST_ANSWER {
        Some(answer)
    } else {
        None
    }
}

impl Link for ListedLink {
    ghost use Rattle.std.specs.Prelude.{Some};
    ghost use Rattle.usp_base.specs.LinkMemory.{listed_ask_faults, listed_asks};

    ghost asks = { λ l. Some (listed_asks l) };

    ghost link_count = { λ l. listed_ask_faults l };

    fn ask(&mut self, alloc: Global, address: &[u8], head: &[u8]) -> Result<Vec<u8>, LoadFault> {
        // The room for the ask is taken first, so that one that is counted is told.
        self.asks.reserve(1)?;
        let Some(answer) = next_answer(&self.answers, self.at) else {
            let lost = note_of(self.alloc, address, head, None)?;
            let _ = self.failures.count_call();
            self.failures.count_fault();
            self.asks.push_reserved(lost);
            return Err(LoadFault::Failed);
        };
        let given = answer.to_vec(alloc)?;
        let kept = Octets::of(answer.to_vec(self.alloc)?);
        let lost = note_of(self.alloc, address, head, None)?;
        let made = note_of(self.alloc, address, head, Some(kept))?;
        if self.failures.count_call() {
            self.asks.push_reserved(lost);
            return Err(LoadFault::Failed);
        }
        self.asks.push_reserved(made);
        self.at = self.at.saturating_add(1);
        Ok(given)
    }

    fn link_faults(&self) -> u64 {
        self.failures.faults()
    }
}

/// A link in memory that gives the answers of a list in order, and the empty one behind them and in place of
/// one that is too long. It never fails, but it may answer want of memory.
#[derive(Drop)]
pub struct SteadyLink {
    alloc: Global,
    answers: Vec<Octets>,
    at: usize,
    asks: Vec<Asked>,
}

impl SteadyLink {
    ghost use Rattle.usp_base.specs.LinkMemory.{steady_answers, steady_asks};

    /// Nothing was asked.
    pub fn new(alloc: Global, answers: Vec<Octets>) -> SteadyLink
        ensures answers { steady_answers result ≡ answers.items }
        ensures asks { steady_asks result ≡ [] }
    {
        SteadyLink {
            alloc,
            answers,
            at: 0,
            asks: Vec::new(alloc),
        }
    }

    /// The asks so far, in order.
    pub fn asks(&self) -> &[Asked]
        ensures { result.now ≡ steady_asks self.now }
    {
        &self.asks
    }
}

impl Link for SteadyLink {
    ghost use Rattle.std.specs.Prelude.{Some};
    ghost use Rattle.usp_base.specs.LinkMemory.{steady_asks};

    ghost asks = { λ l. Some (steady_asks l) };

    ghost link_count = { λ _. 0 };

    fn ask(&mut self, alloc: Global, address: &[u8], head: &[u8]) -> Result<Vec<u8>, LoadFault> {
        let (given, kept) = match next_answer(&self.answers, self.at) {
            Some(answer) => (answer.to_vec(alloc)?, answer.to_vec(self.alloc)?),
            None => (Vec::new(alloc), Vec::new(self.alloc)),
        };
        let kept = Octets::of(kept);
        let made = note_of(self.alloc, address, head, Some(kept))?;
        self.asks.push(made)?;
        self.at = self.at.saturating_add(1);
        Ok(given)
    }

    fn link_faults(&self) -> u64 {
        0
    }
}
