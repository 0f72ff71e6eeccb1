//! The words of `lab` and of `lab-from`, read.
ghost use Rattle.std.specs.Prelude.{◌≡◌, ◌≤◌, IfSome, map, string_bytes};
ghost use Rattle.usp_lab.specs.declared.limits.TheConstants.{MAX_WORKERS};
ghost use Rattle.usp_script.specs.declared.limits.TheConstants.{MAX_GROUPS};
ghost use Rattle.usp_tool.specs.Lab.Words.{groups_of, workers_of};

use crate::counts::count_of;
use usp_lab::MAX_WORKERS;
use usp_script::MAX_GROUPS;

/// By how many workers a script is run, where the words behind the program's name are those of `lab`.
pub fn workers_of(words: &[String]) -> Option<u64>
    ensures workers { result ≡ workers_of (map (λ w. string_bytes w) words.now) }
    ensures range { IfSome result (λ n. (1 ≤ n) × (n ≤ MAX_WORKERS)) }
{
    match words {
        [word, workers] if word.as_str() == "lab" => count_of(MAX_WORKERS as u64, workers.as_str()),
        _ => None,
    }
}

/// Of how many groups a script is made, where the words behind the program's name are those of `lab-from`.
pub fn groups_of(words: &[String]) -> Option<u64>
    ensures groups { result ≡ groups_of (map (λ w. string_bytes w) words.now) }
    ensures range { IfSome result (λ n. (1 ≤ n) × (n ≤ MAX_GROUPS)) }
{
    match words {
        [word, groups] if word.as_str() == "lab-from" => count_of(MAX_GROUPS, groups.as_str()),
        _ => None,
    }
}
