//! The words of `play`.
ghost use Rattle.std.specs.Prelude.{◌≡◌, map, string_bytes};
ghost use Rattle.std.specs.Option.{option_map};
ghost use Rattle.usp_tool.specs.Play.Words.{play_of, words_value};

/// What the words of `play` say.
#[derive(Drop)]
pub struct PlayWords<'a> {
    /// Where the playlist is.
    pub uri: &'a str,
    /// The name of the map of addresses.
    pub map: &'a str,
}

/// What the words behind the program's name say, where they are those of `play`. None exactly where they are not.
pub fn play_of(words: &[String]) -> Option<PlayWords<'_>>
    ensures { option_map words_value result ≡ play_of (map (λ w. string_bytes w) words.now) }
{
    match words {
        [word, uri, map] if word.as_str() == "play" => Some(PlayWords {
            uri: uri.as_str(),
            map: map.as_str(),
        }),
        _ => None,
    }
}
