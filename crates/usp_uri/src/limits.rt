//! What this crate allows at most.
ghost use Rattle.std.specs.Prelude.{◌≡◌};

/// The most bytes of a URI, as it is read and in its normal form, which is a limit of this project.
pub const MAX_LEN: usize = 8192;

/// The number behind the limit's name.
pub fn limits_are_told()
    ensures uri { MAX_LEN ≡ 8192 }
{}
