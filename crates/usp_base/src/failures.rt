//! Which calls of an object in memory fail.
ghost use Rattle.std.specs.Prelude.{◌≡◌, ◌==◌, ◌≤◌, true};
ghost use Rattle.std.specs.List.{list_any};

use std::marker::Model;

/// Which calls of an object in memory fail, and how many have been made and have failed.
#[derive(Drop, Debug)]
pub struct Failures {
    places: Vec<u64>,
    calls: u64,
    faults: u64,
}

impl Model for Failures {
    ghost use Rattle.usp_base.specs.Failing.{FailingCalls};

    ghost Value = { FailingCalls };

    ghost view = { λ f. record { places = f.places.items; calls = f.calls; faults = f.faults } };
}

fn is_listed(places: &[u64], call: u64) -> bool
    ensures { result ≡ list_any (λ place. place == call) places.now }
{
    places.iter().any(|place| *place == call)
}

impl Failures {
    ghost use Rattle.usp_base.specs.Counts.{HasCause, Rose};
    ghost use Rattle.usp_base.specs.Failing.{after_call, fails_next, next_count, none_yet};

    /// The calls at these places, from 0, fail. No call has been made.
    pub fn new(places: Vec<u64>) -> Failures
        ensures { result ≡ none_yet places.items }
    {
        Failures {
            places,
            calls: 0,
            faults: 0,
        }
    }

    /// Counts one call, and answers whether it fails.
    pub fn count_call(&mut self) -> bool
        ensures fails { result ≡ fails_next self.old }
        ensures after { self.new ≡ after_call self.old }
        ensures cause { HasCause self.old.faults self.new.faults (result ≡ true) }
    {
        let fails = is_listed(&self.places, self.calls);
        self.calls = self.calls.saturating_add(1);
        if fails {
            self.faults = self.faults.saturating_add(1);
        }
        fails
    }

    /// Counts a fault of a call that was not to fail.
    pub fn count_fault(&mut self)
        ensures places { self.new.places ≡ self.old.places }
        ensures calls { self.new.calls ≡ self.old.calls }
        ensures faults { self.new.faults ≡ next_count self.old.faults }
        ensures later { self.old.faults ≤ self.new.faults }
        ensures rose { Rose self.old.faults self.new.faults }
    {
        self.faults = self.faults.saturating_add(1);
    }

    /// How many calls have failed.
    pub fn faults(&self) -> u64
        ensures { result ≡ self.now.faults }
    {
        self.faults
    }
}
