//! What this crate allows at most.

ghost use Rattle.std.specs.Prelude.{◌≡◌};
ghost use Rattle.usp_script.specs.declared.limits.TheConstants.{MAX_ASKS, MAX_EDGES, MAX_GROUPS};

/// The most edges of a script, a limit of this project.
pub const MAX_EDGES: usize = 64;

/// The most asks of a script, a limit of this project.
pub const MAX_ASKS: usize = 100_000;

/// The most groups of a generated script, a limit of this project. Each has ten asks.
pub const MAX_GROUPS: u64 = 10_000;

/// The number behind each limit's name.
pub fn limits_are_told()
    ensures edges { MAX_EDGES ≡ 64 }
    ensures asks { MAX_ASKS ≡ 100000 }
    ensures groups { MAX_GROUPS ≡ 10000 }
{}
