//! The limits of this crate. They are this project's own: no standard has numbers for them (RFC 9110, section 5.4).
ghost use Rattle.std.specs.Prelude.{◌≡◌};

/// The longest head of a request in bytes, its last empty line included.
pub const MAX_HEAD: usize = 16_384;

/// The most fields that a head may have.
pub const MAX_FIELDS: usize = 64;

/// Which number each limit is.
pub fn limits_are_told()
    ensures head { MAX_HEAD ≡ 16384 }
    ensures fields { MAX_FIELDS ≡ 64 }
{}
