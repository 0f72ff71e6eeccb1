//! The clock of the system.
ghost use Rattle.std.specs.Prelude.{◌≡◌, ◌≢◌, ◌<◌, ◌-◌, ◌/◌, min, None, IfOk, IfErr};
ghost use Rattle.std.specs.Duration.{as_nanos};
ghost use Rattle.std.specs.IoError.{error_kind};
ghost use Rattle.usp_base.specs.declared.limits.TheConstants.{MOMENT_BOUND};

use std::io;
use std::io::ErrorKind;
use std::time::Duration;
use usp_base::{Clock, MOMENT_BOUND};

/// The clock of the system, in whole seconds since 1970.
#[derive(Drop)]
pub struct SystemClock<'a, R> {
    rt: &'a R,
}

impl<'a, R> SystemClock<'a, R> {
    pub fn new(rt: &'a R) -> Self {
        SystemClock { rt }
    }
}

// The moment of a reading. A clock that stands before 1970 gives `InvalidData`.
fn moment_of(reading: io::Result<Duration>) -> u64
    ensures bound { result < MOMENT_BOUND }
    ensures told { IfOk reading (λ passed. result ≡ min (as_nanos passed / 1000000000) (MOMENT_BOUND - 1)) }
    ensures before { IfErr reading (λ e. error_kind e ≡ ErrorKind.InvalidData → result ≡ 0) }
    ensures unread { IfErr reading (λ e. error_kind e ≢ ErrorKind.InvalidData → result ≡ MOMENT_BOUND - 1) }
{
    match reading {
        Ok(passed) => passed.as_secs().min(MOMENT_BOUND - 1),
        Err(e) => {
            if e.kind() == ErrorKind::InvalidData {
                0
            } else {
                MOMENT_BOUND - 1
            }
        }
    }
}

impl<'a, R: std::rt::Clock> Clock for SystemClock<'a, R> {
    ghost given = { λ _. None };

    fn now(&mut self) -> u64 {
        moment_of(self.rt.since_1970())
    }
}
