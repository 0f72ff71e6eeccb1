//! The ledger.
ghost use Rattle.std.specs.Prelude.{◌≡◌, ◌<◌, ◌≤◌, List, ℕ, [], ◌∷◌, ◌++◌, Some, length, slice_get, IfOk, IfErr, IfSome, OnOk, OnErr};
ghost use Rattle.usp_issue.specs.Sites.{SiteValue};
ghost use Rattle.usp_trace.specs.Chains.{IsChain, IsOrdered, first_place};
ghost use Rattle.usp_trace.specs.Issues.{parent_of};
ghost use Rattle.usp_trace.specs.Sound.{IsDue, Sound};

use crate::issue_list::IssueList;
use crate::{Issue, MAX_ISSUES, NoMemory};
use std::alloc::Global;
use std::marker::Model;

/// What was issued, in the order in which it was appended: at most `MAX_ISSUES` issues. The parent of an issue is the
/// first place of its token.
#[derive(Drop)]
pub struct Ledger {
    issues: IssueList,
}

impl Model for Ledger {
    ghost use Rattle.std.specs.Prelude.{◌≤◌, List, length};
    ghost use Rattle.usp_trace.specs.Chains.{IsOrdered};
    ghost use Rattle.usp_trace.specs.declared.issue.Issue.{Issue};
    ghost use Rattle.usp_trace.specs.declared.limits.TheConstants.{MAX_ISSUES};

    ghost Value = { List Issue };

    ghost view = { λ l. l.issues };

    ghost invariant = { λ l. (length l.issues ≤ MAX_ISSUES) × IsOrdered l.issues };
}

impl Ledger {
    /// No issues. What is appended later takes its memory from `alloc`.
    #[tactic(auto, using(crate::proofs::Ordered::none_ordered))]
    pub fn empty(alloc: Global) -> Ledger
        ensures { result ≡ [] }
    {
        Ledger {
            issues: IssueList::new(alloc),
        }
    }

    /// How many issues there are. A ledger is ordered, as the laws of its chains ask.
    pub fn len(&self) -> u32
        ensures value { result ≡ length self.now }
        ensures bound { result ≤ MAX_ISSUES }
        ensures ordered { IsOrdered self.now }
    {
        self.issues.len() as u32
    }

    /// The issue at that place, counted from 0.
    pub fn issue(&self, place: u32) -> &Issue
        requires { place < length self.now }
        ensures { slice_get self.now place ≡ Some result.now }
    {
        self.issues.get(place as usize)
    }

    /// Appends an issue, and answers its place. Where memory runs out the issue comes back.
    pub fn append(&mut self, issue: Issue) -> Result<u32, (Issue, NoMemory)>
        requires few { length self.old < MAX_ISSUES }
        requires parent { IfSome (parent_of issue)
            (λ parent. (token : List ℕ) × (first_place token self.old ≡ Some parent)) }
        ensures place { IfOk result (λ place. place ≡ length self.old) }
        ensures appended { OnOk result (self.new ≡ self.old ++ issue ∷ []) }
        ensures sound { OnOk result ((sites : List SiteValue) → Sound self.old sites
            → IsDue sites self.old (length self.old) issue → Sound self.new sites) }
        ensures back { IfErr result (λ refused. refused.0 ≡ issue) }
        ensures unchanged { OnErr result (self.new ≡ self.old) }
    {
        let place = self.len();
        self.issues.push(issue)?;
        Ok(place)
    }

    /// The least place of that token. None exactly where no issue has it.
    pub fn first_place(&self, token: &[u8]) -> Option<u32>
        ensures { result ≡ first_place token.now self.now }
    {
        self.issues.find(token)
    }

    /// The places from a grant to that one, by parents.
    #[tactic(auto, using(crate::proofs::Chained::leads_none))]
    pub fn chain(&self, alloc: Global, place: u32) -> Result<Vec<u32>, NoMemory>
        requires { place < length self.now }
        ensures { IfOk result (λ places. IsChain self.now place places.items) }
    {
        let _ = &self.issues;
        let mut places = Vec::new(alloc);
        let mut at = place;
        while let Some(parent) = self.issue(at).parent() {
            places.push(at)?;
            at = parent;
        }
        places.push(at)?;
        places.reverse();
        Ok(places)
    }
}
