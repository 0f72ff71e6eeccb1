//! Numbers among the words of the command line.
ghost use Rattle.std.specs.Prelude.{◌≡◌, ◌<◌, ◌≤◌, ◌^◌, IfSome};
ghost use Rattle.usp_tool.specs.Edge.Words.{count_of};

use usp_base::read_number;

/// The number from 1 to `most` that a word spells.
pub fn count_of(most: u64, word: &str) -> Option<u64>
    requires { most < 2 ^ 60 }
    ensures count { result ≡ count_of most word.now }
    ensures range { IfSome result (λ n. (1 ≤ n) × (n ≤ most)) }
{
    let count = read_number(word.as_bytes(), most)?;
    if count >= 1 { Some(count) } else { None }
}
