//! A list of issues with an index of its tokens.
ghost use Rattle.std.specs.Prelude.{◌≡◌, ◌<◌, [], ◌∷◌, ◌++◌, Some, length, slice_get, IfOk, IfErr, OnOk, OnErr};
ghost use Rattle.std.specs.Option.{option_map};
ghost use Rattle.std.specs.Vec.{vec_capacity};
ghost use Rattle.usp_trace.specs.Chains.{first_place};
ghost use Rattle.usp_trace.specs.Index.{new_token};

use crate::first_places::FirstPlaces;
use crate::{Issue, MAX_ISSUES, NoMemory};
use std::alloc::Global;
use std::marker::Model;

/// Issues in order, and the first place of each of their tokens.
#[derive(Drop)]
pub struct IssueList {
    issues: Vec<Issue>,
    places: FirstPlaces,
}

impl Model for IssueList {
    ghost use Rattle.std.specs.Prelude.{List};
    ghost use Rattle.usp_trace.specs.Index.{IsIndexOf};
    ghost use Rattle.usp_trace.specs.declared.issue.Issue.{Issue};

    ghost Value = { List Issue };

    ghost view = { λ l. l.issues.items };

    ghost invariant = { λ l. IsIndexOf l.issues.items l.places.places };
}

/// Makes room for one more issue in the list and in the index, and copies its token where that has no place yet.
fn make_room(
    issues: &mut Vec<Issue>,
    places: &mut FirstPlaces,
    token: &[u8],
) -> Result<Option<Vec<u8>>, NoMemory>
    ensures issues { issues.new.items ≡ issues.old.items }
    ensures places { places.new.places ≡ places.old.places }
    ensures listed { OnOk result (length issues.new.items < vec_capacity issues.new) }
    ensures indexed { OnOk result (0 < places.new.room) }
    ensures copy { IfOk result (λ copy.
        option_map (λ copy. copy.items) copy ≡ new_token token.now places.old.places) }
{
    issues.reserve(1)?;
    places.make_room(token)
}

impl IssueList {
    /// No issues.
    #[tactic(auto, using(crate::proofs::IndexLemmas::none_indexed))]
    pub fn new(alloc: Global) -> IssueList
        ensures { result ≡ [] }
    {
        IssueList {
            issues: Vec::new(alloc),
            places: FirstPlaces::new(alloc),
        }
    }

    pub fn len(&self) -> usize
        ensures { result ≡ length self.now }
    {
        self.issues.len()
    }

    pub fn get(&self, place: usize) -> &Issue
        requires { place < length self.now }
        ensures { slice_get self.now place ≡ Some result.now }
    {
        &self.issues[place]
    }

    /// The first place of the token.
    pub fn find(&self, token: &[u8]) -> Option<u32>
        ensures { result ≡ first_place token.now self.now }
    {
        self.places.find(token)
    }

    /// Appends an issue. Where memory runs out it comes back.
    pub fn push(&mut self, issue: Issue) -> Result<(), (Issue, NoMemory)>
        requires { length self.old < MAX_ISSUES }
        ensures pushed { OnOk result (self.new ≡ self.old ++ issue ∷ []) }
        ensures back { IfErr result (λ refused. refused.0 ≡ issue) }
        ensures unchanged { OnErr result (self.new ≡ self.old) }
    {
        let place = self.issues.len() as u32;
        let token = issue.token().text();
        match make_room(&mut self.issues, &mut self.places, token) {
            Ok(copy) => {
                self.places.enter(copy, place);
                self.issues.push(issue).unwrap();
                Ok(())
            }
            Err(fault) => Err((issue, fault)),
        }
    }
}
