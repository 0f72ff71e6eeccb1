//! The limits of this crate. They are this project's own: RFC 8216 has none for the first two, and 2^64 - 1 for the
//! third, and RFC 9110 section 15.4 leaves the fourth to the client.
ghost use Rattle.std.specs.Prelude.{◌≡◌};

/// The longest playlist in bytes.
pub const MAX_PLAYLIST: usize = 4_194_304;

/// The most segments of a playlist.
pub const MAX_SEGMENTS: usize = 10_000;

/// The greatest target duration in seconds.
pub const MAX_TARGET: u64 = 4_294_967_295;

/// How often one request is redirected at most.
pub const MAX_REDIRECTIONS: u8 = 5;

/// Which number each limit is.
pub fn limits_are_told()
    ensures playlist { MAX_PLAYLIST ≡ 4194304 }
    ensures segments { MAX_SEGMENTS ≡ 10000 }
    ensures target { MAX_TARGET ≡ 4294967295 }
    ensures redirections { MAX_REDIRECTIONS ≡ 5 }
{}
