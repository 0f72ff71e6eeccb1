//! The time.
ghost use Rattle.std.specs.Prelude.{◌≡◌, ◌<◌, List, [], ◌∷◌, All, ℕ, Option, Some, vec_len};
ghost use Rattle.std.specs.Io.KnownBytes.{append_known};
ghost use Rattle.usp_base.specs.declared.limits.TheConstants.{MOMENT_BOUND};

use crate::limits::MOMENT_BOUND;
use http_server::Log;

/// Something that tells the time.
pub trait Clock {
    /// The moments given so far, where they are told.
    ghost given: { Self → Option (List ℕ) };

    /// The time in seconds since 1970. The moments may come in any order.
    fn now(&mut self) -> u64
        ensures bound { result < MOMENT_BOUND }
        ensures given { given self.new ≡ append_known (given self.old) (result ∷ []) };
}

/// A clock that gives the moments of a list, one after the other, and stands still at the last.
#[derive(Drop)]
pub struct ListedClock {
    moments: Vec<u64>,
    at: usize,
    log: Log<u64, ()>,
    ghost some: { at < vec_len moments },
    ghost bound: { All (λ moment. moment < MOMENT_BOUND) moments.items },
}

impl ListedClock {
    ghost use Rattle.usp_base.specs.Memory.{listed_given, listed_moments};

    /// No moment was given.
    pub fn new(moments: Vec<u64>) -> ListedClock
        requires some { 0 < vec_len moments }
        requires bound { All (λ moment. moment < MOMENT_BOUND) moments.items }
        ensures moments { listed_moments result ≡ moments.items }
        ensures given { listed_given result ≡ [] }
    {
        ListedClock {
            moments,
            at: 0,
            log: Log::new(),
        }
    }
}

impl Clock for ListedClock {
    ghost use Rattle.usp_base.specs.Memory.{listed_given};

    ghost given = { λ c. Some (listed_given c) };

    fn now(&mut self) -> u64 {
        let moment = self.moments[self.at];
        self.log = self.log.and(&moment, &());
        if self.at + 1 < self.moments.len() {
            self.at += 1;
        }
        moment
    }
}

/// A clock that stands still.
#[derive(Drop)]
pub struct SteadyClock {
    moment: u64,
    log: Log<u64, ()>,
    ghost bound: { moment < MOMENT_BOUND },
}

impl SteadyClock {
    ghost use Rattle.usp_base.specs.Memory.{steady_given, steady_moment};

    /// No moment was given.
    pub fn new(moment: u64) -> SteadyClock
        requires { moment < MOMENT_BOUND }
        ensures moment { steady_moment result ≡ moment }
        ensures given { steady_given result ≡ [] }
    {
        SteadyClock {
            moment,
            log: Log::new(),
        }
    }
}

impl Clock for SteadyClock {
    ghost use Rattle.usp_base.specs.Memory.{steady_given};

    ghost given = { λ c. Some (steady_given c) };

    fn now(&mut self) -> u64 {
        let moment = self.moment;
        self.log = self.log.and(&moment, &());
        moment
    }
}
