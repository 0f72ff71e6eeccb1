//! What this crate allows at most.
ghost use Rattle.std.specs.Prelude.{◌≡◌};

/// Every moment is below this: 2^52 seconds since 1970, which is a limit of this project.
pub const MOMENT_BOUND: u64 = 1 << 52;

/// The longest answer of a link in bytes, which is a limit of this project.
pub const LONGEST_ANSWER: usize = 16_777_216;

/// Which number each limit is.
pub fn limits_are_told()
    ensures moments { MOMENT_BOUND ≡ 4503599627370496 }
    ensures answers { LONGEST_ANSWER ≡ 16777216 }
{}
