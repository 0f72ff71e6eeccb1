//! What this crate allows at most.

ghost use Rattle.std.specs.Prelude.{◌≡◌};

/// The most issues of a ledger, a limit of this project.
pub const MAX_ISSUES: u32 = 1_000_000;

/// The number of the limit.
pub fn limits_are_told()
    ensures { MAX_ISSUES ≡ 1000000 }
{}
