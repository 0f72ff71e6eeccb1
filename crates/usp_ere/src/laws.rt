//! Laws of the crate. Their bodies are empty: the clauses are what they say.
ghost use Rattle.std.specs.Prelude.{◌≡◌};

use crate::limits::{MAX_COUNT, MAX_SIZE};

/// Which number each limit is.
pub fn limits_are_told()
    ensures nodes { MAX_SIZE ≡ 4000 }
    ensures counts { MAX_COUNT ≡ 255 }
{}
