//! The members of an object.

ghost use Rattle.std.specs.Prelude.{◌≡◌, ◌<◌, [], ◌∷◌, ◌++◌, length, slice_get, slice_set, Some, OnOk, OnErr};
ghost use Rattle.std.specs.Option.{option_copied};
ghost use Rattle.usp_json.specs.Entries.{entries, place_of, value_of, IsPaired};

use crate::steps::is_name;
use crate::{Json, Members, NoMemory, Text};
use sqlite_items::Items as Row;
use std::alloc::Global;

impl Members {
    /// No members. What is pushed later takes its memory from `alloc`.
    pub fn new(alloc: Global) -> Members
        ensures names { result.names ≡ [] }
        ensures values { result.values ≡ [] }
    {
        Members {
            names: Row::new(alloc),
            values: Row::new(alloc),
        }
    }

    #[tactic(auto, using(crate::proofs::Pairs::length_zip))]
    pub fn len(&self) -> usize
        ensures { result ≡ length (entries self.now) }
    {
        self.names.len().min(self.values.len())
    }

    fn name_at(&self, place: usize) -> &Text
        requires { place < length self.now.names }
        ensures { slice_get self.now.names place ≡ Some result.now }
    {
        &self.names.as_slice()[place]
    }

    fn value_at(&self, place: usize) -> &Json
        requires { place < length self.now.values }
        ensures { slice_get self.now.values place ≡ Some result.now }
    {
        &self.values.as_slice()[place]
    }

    /// The name and the value at that place, counted from 0.
    #[tactic(auto, using(crate::proofs::Pairs::in_names, crate::proofs::Pairs::in_values, crate::proofs::Pairs::both))]
    pub fn at(&self, place: usize) -> (&Text, &Json)
        requires { place < length (entries self.now) }
        ensures { slice_get (entries self.now) place ≡ Some (result.0.now, result.1.now) }
    {
        (self.name_at(place), self.value_at(place))
    }

    /// Adds a member at the end. Where there is no memory, nothing is changed, and the name and the value are dropped.
    pub fn push(&mut self, name: Text, value: Json) -> Result<(), NoMemory>
        ensures names { OnOk result (self.new.names ≡ self.old.names ++ name ∷ []) }
        ensures values { OnOk result (self.new.values ≡ self.old.values ++ value ∷ []) }
        ensures member { OnOk result (IsPaired self.old
            → entries self.new ≡ entries self.old ++ (name, value) ∷ []) }
        ensures unchanged_names { OnErr result (self.new.names ≡ self.old.names) }
        ensures unchanged_values { OnErr result (self.new.values ≡ self.old.values) }
    {
        self.names.push(name)?;
        match self.values.push(value) {
            Ok(()) => Ok(()),
            Err(_) => {
                let _name = self.names.pop();
                Err(NoMemory)
            }
        }
    }

    /// Replaces the value at that place, counted from 0. It takes no memory.
    #[tactic(auto, using(crate::proofs::Pairs::in_values))]
    pub fn set(&mut self, place: usize, value: Json)
        requires { place < length (entries self.old) }
        ensures names { self.new.names ≡ self.old.names }
        ensures values { self.new.values ≡ slice_set self.old.values place value }
    {
        self.values.set(place, value);
    }

    /// The place of the first member of that name, counted from 0.
    pub fn place(&self, name: &[u8]) -> Option<usize>
        ensures { result ≡ place_of name.now self.now.names }
    {
        self.names
            .as_slice()
            .iter()
            .position(|stored| is_name(stored, name))
    }

    /// The value of the first member of that name.
    pub fn find(&self, name: &[u8]) -> Option<&Json>
        ensures { option_copied result ≡ value_of name.now (entries self.now) }
    {
        for i in 0..self.len() {
            let (stored, value) = self.at(i);
            if stored.text().as_bytes() == name {
                return Some(value);
            }
        }
        None
    }
}
