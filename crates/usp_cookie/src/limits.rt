//! The limit of this crate. It is this project's own: RFC 6265 section 6.1 asks for at least 50 cookies a host.
ghost use Rattle.std.specs.Prelude.{◌≡◌};

/// The most cookies that a jar keeps.
pub const MAX_COOKIES: usize = 64;

/// Which number the limit is.
pub fn limits_are_told()
    ensures cookies { MAX_COOKIES ≡ 64 }
{}
