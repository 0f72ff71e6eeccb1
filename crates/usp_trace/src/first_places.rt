//! Where each token stands first.
ghost use Rattle.std.specs.Prelude.{◌≡◌, ◌<◌, [], None, IfOk, IfSome, OnOk};
ghost use Rattle.std.specs.Option.{option_map};
ghost use Rattle.usp_trace.specs.Index.{new_token, place_under, with_place};

use crate::NoMemory;
use indexmap::IndexMap;
use std::alloc::Global;
use std::marker::Model;

/// Tokens, each with a place, and room for more of them.
#[derive(Drop)]
pub struct FirstPlaces {
    table: IndexMap<Vec<u8>, u32>,
}

impl Model for FirstPlaces {
    ghost use Rattle.indexmap.specs.IndexMap.{spare};
    ghost use Rattle.usp_trace.specs.Index.{Indexed, by_bytes};

    ghost Value = { Indexed };

    ghost view = { λ p. record { places = by_bytes p.table.entries; room = spare p.table } };
}

impl FirstPlaces {
    /// No tokens.
    pub fn new(alloc: Global) -> FirstPlaces
        ensures { result.places ≡ [] }
    {
        FirstPlaces {
            table: IndexMap::new(alloc),
        }
    }

    /// The place of the token.
    #[tactic(auto, using(crate::proofs::IndexLemmas::place_by_bytes))]
    pub fn find(&self, token: &[u8]) -> Option<u32>
        ensures { result ≡ place_under token.now self.now.places }
    {
        self.table.get(token).copied()
    }

    /// Makes room for one token more, and copies this one where it has no place yet.
    pub fn make_room(&mut self, token: &[u8]) -> Result<Option<Vec<u8>>, NoMemory>
        ensures places { self.new.places ≡ self.old.places }
        ensures room { OnOk result (0 < self.new.room) }
        ensures copy { IfOk result (λ copy.
            option_map (λ copy. copy.items) copy ≡ new_token token.now self.old.places) }
    {
        self.table.reserve(1)?;
        if self.find(token).is_some() {
            return Ok(None);
        }
        Ok(Some(token.to_vec(*self.table.allocator())?))
    }

    /// Gives the token its place, if there is one. It has none yet.
    #[tactic(auto, using(crate::proofs::IndexLemmas::place_added))]
    pub fn enter(&mut self, token: Option<Vec<u8>>, place: u32)
        requires room { 0 < self.old.room }
        requires fresh { IfSome token (λ token. place_under token.items self.old.places ≡ None) }
        ensures { self.new.places
            ≡ with_place (option_map (λ token. token.items) token) place self.old.places }
    {
        if let Some(token) = token {
            let _ = self.table.insert(token, place).unwrap();
        }
    }
}
