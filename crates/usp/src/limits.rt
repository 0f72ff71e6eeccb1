//! How long the program waits for those at the other end of a connection, and how often it tries again.
ghost use Rattle.std.specs.Prelude.{◌≡◌};

/// How many seconds a client may send nothing while no request of it is under way.
pub const IDLE_SECONDS: u64 = 5;

/// In how many seconds a client has to end a head, counted from when it was connected or last answered.
pub const HEAD_SECONDS: u64 = 30;

/// How many seconds a client may take nothing of what is written to it.
pub const WRITE_SECONDS: u64 = 30;

/// How many seconds a client that was answered for the last time has to close its side.
pub const CLOSE_SECONDS: u64 = 1;

/// How many seconds a player waits to be connected, for bytes to come, and for bytes to be taken.
pub const LINK_SECONDS: u64 = 30;

/// How often a call that a signal interrupted is made again.
pub const MOST_TRIES: u32 = 1000;

/// How many reads are made of what a client sends behind its last answer.
pub const MOST_DRAINS: u32 = 64;

/// How many connections in a row are let go that were broken off before they were taken.
pub const MOST_BROKEN: u32 = 100_000;

/// Which number each limit is.
pub fn limits_are_told()
    ensures idle { IDLE_SECONDS ≡ 5 }
    ensures head { HEAD_SECONDS ≡ 30 }
    ensures write { WRITE_SECONDS ≡ 30 }
    ensures close { CLOSE_SECONDS ≡ 1 }
    ensures link { LINK_SECONDS ≡ 30 }
    ensures tries { MOST_TRIES ≡ 1000 }
    ensures drains { MOST_DRAINS ≡ 64 }
    ensures broken { MOST_BROKEN ≡ 100000 }
{}
