//! The ledger with its labels.
ghost use Rattle.std.specs.Prelude.{◌≡◌, ◌≤◌, ℕ, List, [], ◌∷◌, ◌++◌, Some, length, IfSome, OnOk};
ghost use Rattle.usp_trace.specs.Chains.{first_place};
ghost use Rattle.usp_trace.specs.Issues.{parent_of};
ghost use Rattle.usp_trace.specs.declared.limits.TheConstants.{MAX_ISSUES};
ghost use Rattle.usp_lab.specs.Entries.{labels_of, ledger_of};

use crate::NoMemory;
use std::alloc::Global;
use std::marker::Model;
use usp_script::Label;
use usp_trace::{Issue, Ledger, MAX_ISSUES};

/// A ledger, and the label of each of its issues.
#[derive(Drop)]
pub(crate) struct EntryList {
    ledger: Ledger,
    labels: Vec<Label>,
}

impl Model for EntryList {
    ghost use Rattle.std.specs.Prelude.{◌≡◌, List, length};
    ghost use Rattle.usp_lab.specs.Entries.{Entry, labelled};

    ghost Value = { List Entry };

    ghost view = { λ entries. labelled entries.labels.items entries.ledger };

    ghost invariant = { λ entries. length entries.labels.items ≡ length entries.ledger };
}

impl EntryList {
    pub(crate) fn new(alloc: Global) -> EntryList
        ensures { result ≡ [] }
    {
        EntryList {
            ledger: Ledger::empty(alloc),
            labels: Vec::new(alloc),
        }
    }

    #[tactic(auto, using(crate::proofs::Labelled::labelled_length))]
    pub(crate) fn len(&self) -> u32
        ensures value { result ≡ length self.now }
        ensures bound { result ≤ MAX_ISSUES }
    {
        let _ = &self.labels;
        self.ledger.len()
    }

    /// The least place of that token.
    pub(crate) fn first_place(&self, token: &[u8]) -> Option<u32>
        ensures { result ≡ first_place token.now (ledger_of self.now) }
    {
        let _ = &self.labels;
        self.ledger.first_place(token)
    }

    /// Enters an issue with its label.
    pub(crate) fn enter(&mut self, label: Label, issue: Issue) -> Result<(), NoMemory>
        requires { IfSome (parent_of issue)
            (λ parent. (token : List ℕ) × (first_place token (ledger_of self.old) ≡ Some parent)) }
        ensures { OnOk result (self.new ≡ self.old ++ record { label = label; issue = issue } ∷ []) }
    {
        // A ledger that is full is answered as want of memory. No script has so many grants and asks: each takes a line
        // of an input that has at most 16 MiB.
        if self.ledger.len() == MAX_ISSUES {
            return Err(NoMemory);
        }
        self.labels.reserve(1)?;
        self.ledger.append(issue)?;
        self.labels.push_reserved(label);
        Ok(())
    }

    /// The ledger and its labels.
    pub(crate) fn into_parts(self) -> (Ledger, Vec<Label>)
        ensures ledger { result.0 ≡ ledger_of self }
        ensures labels { result.1.items ≡ labels_of self }
    {
        let EntryList { ledger, labels } = self;
        (ledger, labels)
    }
}
