//! What this crate allows at most.

ghost use Rattle.std.specs.Prelude.{◌≡◌};
ghost use Rattle.usp_package.specs.declared.limits.TheConstants.{MAX_NAME};

/// The most bytes of an attribute's name, a limit of this project.
pub const MAX_NAME: usize = 64;

/// The number behind the limit's name.
pub fn limits_are_told()
    ensures name { MAX_NAME ≡ 64 }
{}
