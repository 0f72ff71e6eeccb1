//! How long a read of a connection waits for its client.
ghost use Rattle.std.specs.Prelude.{◌≡◌, ◌++◌, ◌<◌, ◌≤◌, [], ◌∷◌, true, MatchOption};
ghost use Rattle.std.specs.Duration.{as_nanos};
ghost use Rattle.usp.specs.Waits.{ends_a_head, last_three, nanos, time_left};
ghost use Rattle.usp.specs.declared.limits.TheConstants.{HEAD_SECONDS, IDLE_SECONDS};

use crate::limits::{HEAD_SECONDS, IDLE_SECONDS};
use std::time::Duration;

/// The last three bytes that came in. They tell whether a request is under way, since each head ends with an empty
/// line.
#[derive(Clone, Copy)]
pub struct Tail {
    first: u8,
    second: u8,
    last: u8,
}

impl Tail {
    /// No request is under way before the first byte.
    pub fn new() -> Tail
        ensures { ends_a_head (result.first ∷ result.second ∷ result.last ∷ []) ≡ true }
    {
        Tail {
            first: b'\n',
            second: b'\r',
            last: b'\n',
        }
    }

    /// The tail after one more byte.
    fn and(self, byte: u8) -> Tail
        ensures { result.first ∷ result.second ∷ result.last ∷ []
            ≡ last_three ((self.first ∷ self.second ∷ self.last ∷ []) ++ byte ∷ []) }
    {
        Tail {
            first: self.second,
            second: self.last,
            last: byte,
        }
    }

    /// The tail after more bytes.
    pub fn behind(self, bytes: &[u8]) -> Tail
        ensures { result.first ∷ result.second ∷ result.last ∷ []
            ≡ last_three ((self.first ∷ self.second ∷ self.last ∷ []) ++ bytes.now) }
    {
        match bytes {
            [] => self,
            [a] => self.and(*a),
            [a, b] => self.and(*a).and(*b),
            [.., a, b, c] => Tail {
                first: *a,
                second: *b,
                last: *c,
            },
        }
    }

    /// Whether an empty line stands last.
    pub fn ends_a_head(self) -> bool
        ensures { result ≡ ends_a_head (self.first ∷ self.second ∷ self.last ∷ []) }
    {
        (self.first == b'\n' && self.second == b'\r' && self.last == b'\n')
            || (self.second == b'\n' && self.last == b'\n')
    }
}

/// How long a read may wait for a client, when so much time has passed since it was connected or last answered. None
/// says that its time is over.
pub fn patience(passed: Duration, between: bool) -> Option<Duration>
    ensures { MatchOption result (nanos HEAD_SECONDS ≤ as_nanos passed) (λ limit. (0 < as_nanos limit)
        × (as_nanos limit ≡ time_left (nanos HEAD_SECONDS) (nanos IDLE_SECONDS) (as_nanos passed) between)) }
{
    let left = Duration::from_secs(HEAD_SECONDS).saturating_sub(passed);
    if left.is_zero() {
        None
    } else if between {
        Some(left.min(Duration::from_secs(IDLE_SECONDS)))
    } else {
        Some(left)
    }
}
