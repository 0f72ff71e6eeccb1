//! The clock of an ask.
ghost use Rattle.std.specs.Prelude.{◌≡◌, ◌<◌, [], ◌∷◌, map};
ghost use Rattle.usp_base.specs.declared.limits.TheConstants.{MOMENT_BOUND};
ghost use Rattle.usp_lab.specs.Still.{IsStill};

use http_server::Log;
use usp_base::Clock;

/// A clock that stands still at the moment of an ask. It tells that moment before it gives one, so each that it gives
/// is seen to be that one.
#[derive(Drop)]
pub(crate) struct AskClock {
    moment: u64,
    log: Log<u64, ()>,
    ghost bound: { moment < MOMENT_BOUND },
    ghost still: { IsStill moment (map (λ pair. pair.0) log.items) },
}

impl AskClock {
    ghost use Rattle.usp_lab.specs.AskMemory.{clock_given};

    pub fn new(moment: u64) -> AskClock
        requires { moment < MOMENT_BOUND }
        ensures { clock_given result ≡ moment ∷ [] }
    {
        AskClock {
            moment,
            log: Log::new().and(&moment, &()),
        }
    }
}

impl Clock for AskClock {
    ghost use Rattle.std.specs.Prelude.{Some};
    ghost use Rattle.usp_lab.specs.AskMemory.{clock_given};

    ghost given = { λ clock. Some (clock_given clock) };

    fn now(&mut self) -> u64 {
        let moment = self.moment;
        self.log = self.log.and(&moment, &());
        moment
    }
}
