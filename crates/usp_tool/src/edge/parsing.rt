//! The words of `edge`, read.
ghost use Rattle.std.specs.Prelude.{◌≡◌, map, string_bytes};
ghost use Rattle.std.specs.Option.{option_map};
ghost use Rattle.usp_tool.specs.Edge.Words.{edge_of, words_value};

use super::words::EdgeWords;
use crate::counts::count_of;
use crate::limits::{MAX_CONNECTIONS, MAX_WORKERS};

/// What the words behind the program's name say, where they are those of `edge`. None exactly where they are not.
pub fn edge_of(words: &[String]) -> Option<EdgeWords<'_>>
    ensures { option_map words_value result ≡ edge_of (map (λ w. string_bytes w) words.now) }
{
    match words {
        [word, conf, address, workers, connections, folder] if word.as_str() == "edge" => {
            Some(EdgeWords {
                conf: conf.as_str(),
                address: address.as_str(),
                workers: count_of(MAX_WORKERS as u64, workers.as_str())?,
                connections: count_of(MAX_CONNECTIONS, connections.as_str())?,
                folder: folder.as_str(),
            })
        }
        _ => None,
    }
}

/// How many workers the words ask for, where they are those of `edge`.
pub fn edge_words(words: &[String]) -> Option<usize>
    ensures { result ≡ option_map (λ w. w.workers) (edge_of (map (λ w. string_bytes w) words.now)) }
{
    let words = edge_of(words)?;
    Some(words.workers as usize)
}
