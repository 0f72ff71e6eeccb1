//! What this crate allows at most.

ghost use Rattle.std.specs.Prelude.{◌≡◌};
ghost use Rattle.usp_lab.specs.declared.limits.TheConstants.{CALLS_PER_ASK, MAX_WORKERS};

/// The most workers of a lab, a limit of this project.
pub const MAX_WORKERS: usize = 16;

/// How many nonce calls a table has left for each ask that is to come: each worker of a round may get the calls of a
/// whole connection for it.
pub(crate) const CALLS_PER_ASK: u64 = 1_600;

/// The number behind each limit's name.
pub fn limits_are_told()
    ensures workers { MAX_WORKERS ≡ 16 }
    ensures calls { CALLS_PER_ASK ≡ 1600 }
{}
