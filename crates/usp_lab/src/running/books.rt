//! What is kept of a run while it goes on.
ghost use Rattle.std.specs.Prelude.{◌≡◌, ◌+◌, ◌<◌, ◌≤◌, All, [], ◌∷◌, ◌++◌, IfOk, OnOk, length, map, take};
ghost use Rattle.usp_script.specs.Script.{IsAsk};
ghost use Rattle.usp_script.specs.declared.limits.TheConstants.{MAX_ASKS, MAX_EDGES};
ghost use Rattle.usp_trace.specs.declared.limits.TheConstants.{MAX_ISSUES};
ghost use Rattle.usp_lab.specs.Books.{issue_at, noted_entries, noted_reports, origin_in, report_at};
ghost use Rattle.usp_lab.specs.Entries.{entry_for, grant_entries, labels_of, ledger_of};
ghost use Rattle.usp_lab.specs.UnderWay.{IsEmpty};

use super::entry_list::EntryList;
use super::issuing::{Noted, issue_at, origin_of};
use super::tokens::copy_of;
use crate::{AskReport, NoMemory, Report};
use std::alloc::Global;
use usp_base::Rows;
use usp_conf::Conf;
use usp_edge::Note;
use usp_jws::Token;
use usp_script::{LabAsk, Label};
use usp_trace::Issue;

/// What is kept of a run while it goes on.
#[derive(Drop)]
pub(crate) struct Books {
    pub(crate) entries: EntryList,
    /// How many tokens were granted.
    pub(crate) grants: u32,
    /// The asks, in order.
    pub(crate) asks: Vec<AskReport>,
    /// What each ask issued.
    pub(crate) issued: Vec<Option<Token>>,
}

// A copy of a token, where there is one.
fn issued_by(alloc: Global, note: &Note) -> Result<Option<Token>, NoMemory>
    ensures { IfOk result (λ issued. issued ≡ note.now.issued) }
{
    match &note.issued {
        Some(token) => Ok(Some(copy_of(alloc, token)?)),
        None => Ok(None),
    }
}

impl Books {
    pub(crate) fn new(alloc: Global) -> Books
        ensures { IsEmpty result }
    {
        Books {
            entries: EntryList::new(alloc),
            grants: 0,
            asks: Vec::new(alloc),
            issued: Vec::new(alloc),
        }
    }

    // Enters one more grant.
    fn grant_one(&mut self, alloc: Global, token: &Token) -> Result<(), NoMemory>
        requires { self.old.grants ≤ length self.old.entries }
        ensures entries { OnOk result
            (self.new.entries ≡ self.old.entries ++ grant_entries (self.old.grants + 1) (token.now ∷ [])) }
        ensures grants { OnOk result (self.new.grants ≡ self.old.grants + 1) }
        ensures asks { self.new.asks ≡ self.old.asks }
        ensures issued { self.new.issued ≡ self.old.issued }
    {
        prove!(self.grants <= self.entries.len());
        let number = self.grants + 1;
        let token = copy_of(alloc, token)?;
        self.entries
            .enter(Label::Granted(number), Issue::Grant { token })?;
        self.grants = number;
        Ok(())
    }

    /// Enters grants, in their order.
    pub(crate) fn grant(&mut self, alloc: Global, tokens: &[Token]) -> Result<(), NoMemory>
        requires { self.old.grants ≤ length self.old.entries }
        ensures entries { OnOk result
            (self.new.entries ≡ self.old.entries ++ grant_entries (self.old.grants + 1) tokens.now) }
        ensures grants { OnOk result (self.new.grants ≡ self.old.grants + length tokens.now) }
        ensures asks { self.new.asks ≡ self.old.asks }
        ensures issued { self.new.issued ≡ self.old.issued }
    {
        'tokens: for token in tokens {
            self.grant_one(alloc, token)?;
        }
        Ok(())
    }

    // Enters what an ask issued, and keeps what is reported of it. Its round began with so many of the entries.
    fn note_one(&mut self, alloc: Global, known: u32, noted: &Noted<'_>) -> Result<(), NoMemory>
        requires place { noted.now.place < MAX_EDGES }
        requires few { length self.old.issued.items < MAX_ASKS }
        ensures entries { OnOk result (self.new.entries ≡ self.old.entries
            ++ entry_for (length self.old.issued.items + 1)
            (issue_at (origin_in (take known (ledger_of self.old.entries)) noted.now.note.now)
            noted.now.place noted.now.edge.now noted.now.note.now)) }
        ensures asks { OnOk result (self.new.asks.items ≡ self.old.asks.items
            ++ report_at (origin_in (take known (ledger_of self.old.entries)) noted.now.note.now)
            noted.now.place noted.now.note.now ∷ []) }
        ensures issued { OnOk result
            (self.new.issued.items ≡ self.old.issued.items ++ noted.now.note.now.issued ∷ []) }
        ensures grants { self.new.grants ≡ self.old.grants }
    {
        let number = self.issued.len() as u32 + 1;
        let origin = origin_of(&self.entries, known, noted.note);
        if let Some(issue) = issue_at(alloc, origin, noted)? {
            self.entries.enter(Label::Issued(number), issue)?;
        }
        self.asks.push(AskReport {
            edge: noted.place,
            verdict: noted.note.verdict,
            status: noted.note.status,
            call: noted.note.call,
            origin,
        })?;
        self.issued.push(issued_by(alloc, noted.note)?)?;
        Ok(())
    }

    /// Enters what the asks of a round issued, in their order, and keeps what is reported of them.
    pub(crate) fn note(
        &mut self,
        alloc: Global,
        edges: &[Conf],
        asks: &[LabAsk],
        notes: &[Note],
    ) -> Result<(), NoMemory>
        requires edges { length edges.now ≤ MAX_EDGES }
        requires asks { All (IsAsk edges.now) asks.now }
        requires notes { length notes.now ≡ length asks.now }
        requires few { length self.old.issued.items + length asks.now ≤ MAX_ASKS }
        ensures entries { OnOk result (self.new.entries ≡ self.old.entries
            ++ noted_entries (length self.old.issued.items + 1) (ledger_of self.old.entries)
            edges.now asks.now notes.now) }
        ensures asks { OnOk result (self.new.asks.items ≡ self.old.asks.items
            ++ noted_reports (ledger_of self.old.entries) asks.now notes.now) }
        ensures issued { OnOk result (self.new.issued.items
            ≡ self.old.issued.items ++ map (λ note. note.issued) notes.now) }
        ensures grants { self.new.grants ≡ self.old.grants }
    {
        let known = self.entries.len();
        'asks: for (i, ask) in asks.iter().enumerate() {
            let noted = Noted {
                place: ask.edge,
                edge: &edges[ask.edge as usize],
                note: &notes[i],
            };
            self.note_one(alloc, known, &noted)?;
        }
        Ok(())
    }

    /// The report of the run, behind which so many nonce calls were made at each edge.
    pub(crate) fn into_report(self, calls: Vec<u64>) -> Report
        ensures asks { result.asks ≡ self.asks.items }
        ensures ledger { result.ledger ≡ ledger_of self.entries }
        ensures labels { result.labels ≡ labels_of self.entries }
        ensures calls { result.calls ≡ calls.items }
    {
        let (ledger, labels) = self.entries.into_parts();
        Report {
            asks: Rows::of(self.asks),
            ledger,
            labels: Rows::of(labels),
            calls: Rows::of(calls),
        }
    }
}
