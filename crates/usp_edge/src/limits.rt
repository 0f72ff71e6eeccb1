//! What this crate allows at most.

ghost use Rattle.std.specs.Prelude.{◌≡◌};
ghost use Rattle.usp_edge.specs.declared.limits.TheConstants.{MAX_HEADS};

/// The most heads that are answered on one connection, a limit of this project.
pub const MAX_HEADS: u64 = 100;

/// The number behind the limit's name.
pub fn limits_are_told()
    ensures { MAX_HEADS ≡ 100 }
{}
