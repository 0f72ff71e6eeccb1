//! Where nonces are taken.
ghost use Rattle.std.specs.Prelude.{◌≡◌, ◌<◌, ◌≤◌, ◌+◌, ℕ, List, [], ◌∷◌, ◌++◌, length};
ghost use Rattle.usp_base.specs.declared.limits.TheConstants.{MOMENT_BOUND};
ghost use Rattle.usp_nonce.specs.declared.limits.TheConstants.{MAX_UNTIL};
ghost use Rattle.usp_edge.specs.Calls.{Placed, placed};
ghost use Rattle.usp_edge.specs.Gains.{TableGains, table_left};

use usp_nonce::{MAX_CALLS, NonceKey, NonceTable, Turned};

/// A table of nonces, of one thread or of many.
pub trait Nonces {
    /// The nonce calls by which an object came from one state to another.
    ghost gains: { Self → Self → List Placed → Type 0 };

    /// How many more calls are answered.
    ghost calls_left: { Self → ℕ };

    /// Asks for a nonce at `now`, to be held until `until`, both in seconds since 1970 (RFC 9246 section 2.1.7).
    fn take(&mut self, key: NonceKey, now: u64, until: u64) -> Turned
        requires moment { now < MOMENT_BOUND }
        requires held { until ≤ MAX_UNTIL }
        requires some { 1 ≤ calls_left self.old }
        ensures { gains self.old self.new (placed key now until result ∷ []) };

    /// How many more calls are answered.
    fn left(&self) -> u64
        ensures { result ≡ calls_left self.now };

    ghost gains_none: { (a : Self) → Self.gains a a [] };

    ghost gains_both: { (a b c : Self) (x y : List Placed) → Self.gains a b x → Self.gains b c y
        → Self.gains a c (x ++ y) };

    ghost gains_left: { (a b : Self) (x : List Placed) → Self.gains a b x
        → Self.calls_left b + length x ≡ Self.calls_left a };
}

impl Nonces for NonceTable {
    ghost use Rattle.usp_edge.specs.TableLaws.{table_gains_both, table_gains_left, table_gains_none};

    ghost gains = { TableGains };

    ghost calls_left = { table_left };

    fn take(&mut self, key: NonceKey, now: u64, until: u64) -> Turned {
        self.take(key, now, until)
    }

    fn left(&self) -> u64 {
        MAX_CALLS.saturating_sub(self.calls())
    }

    ghost gains_none = { table_gains_none };

    ghost gains_both = { table_gains_both };

    ghost gains_left = { table_gains_left };
}
