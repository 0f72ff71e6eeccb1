//! The bounds of a nonce table. All are of this project.
ghost use Rattle.std.specs.Prelude.{◌≡◌, ◌^◌};

/// The greatest room of a table: how many nonces it may hold at once.
pub const MAX_ROOM: u32 = 65_536;

// The most rows of a table, those that are over with those that are held: of the greatest room, and an eighth more.
pub(crate) const MAX_ROWS: u32 = MAX_ROOM + MAX_ROOM / 8 + 1;

/// The moment of a call is below this, in seconds since 1970.
pub const MOMENT_LIMIT: u64 = 1 << 52;

/// A nonce is held until this moment at most, in seconds since 1970.
pub const MAX_UNTIL: u64 = 1 << 53;

/// A table answers this many calls.
pub const MAX_CALLS: u64 = 1 << 62;

/// Which number each limit is.
pub fn limits_are_told()
    ensures room { MAX_ROOM ≡ 65536 }
    ensures rows { MAX_ROWS ≡ 73729 }
    ensures moment { MOMENT_LIMIT ≡ 2 ^ 52 }
    ensures until { MAX_UNTIL ≡ 2 ^ 53 }
    ensures calls { MAX_CALLS ≡ 2 ^ 62 }
{}
