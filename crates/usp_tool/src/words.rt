//! The words of the command line.
ghost use Rattle.std.specs.Prelude.{◌≡◌, map, string_bytes};
ghost use Rattle.std.specs.Option.{option_map};
ghost use Rattle.usp_tool.specs.Words.{command_of, conf_name, in_bytes};

/// The line that is printed for other words.
pub const USAGE: &[u8] =
    b"usage: usp sign CONF KID | check CONF | lab WORKERS | lab-from N | edge CONF ADDRESS WORKERS CONNECTIONS \
      FOLDER | play URI MAP\n";

/// What the words ask for.
#[derive(Drop)]
pub enum Command<'a> {
    /// `check CONF`: judges each line of the input.
    Check { conf: &'a str },
    /// `sign CONF KID`: signs each line of the input with the key of that name.
    Sign { conf: &'a str, kid: &'a str },
}

impl<'a> Command<'a> {
    /// The name of the configuration.
    pub fn conf(&self) -> &'a str
        ensures { result.now ≡ conf_name (in_bytes self.now) }
    {
        match self {
            Command::Check { conf } => *conf,
            Command::Sign { conf, .. } => *conf,
        }
    }
}

/// The command that the words behind the program's name ask for. None exactly where they ask for none.
pub fn command_of(words: &[String]) -> Option<Command<'_>>
    ensures { option_map in_bytes result ≡ command_of (map (λ w. string_bytes w) words.now) }
{
    match words {
        [word, conf] if word.as_str() == "check" => Some(Command::Check {
            conf: conf.as_str(),
        }),
        [word, conf, kid] if word.as_str() == "sign" => Some(Command::Sign {
            conf: conf.as_str(),
            kid: kid.as_str(),
        }),
        _ => None,
    }
}
