//! What is asked.
ghost use Rattle.std.specs.Prelude.{◌≡◌, ◌<◌};
ghost use Rattle.std.specs.Option.{option_copied};
ghost use Rattle.usp_base.specs.declared.limits.TheConstants.{MOMENT_BOUND};

use std::marker::Model;

/// A request: its URI, the token that a cookie brings, and the moment.
#[derive(Drop)]
pub struct Ask<'a> {
    uri: &'a [u8],
    cookie: Option<&'a [u8]>,
    moment: u64,
}

impl<'a> Model for Ask<'a> {
    ghost use Rattle.std.specs.Prelude.{◌<◌};
    ghost use Rattle.std.specs.Option.{option_copied};
    ghost use Rattle.usp_base.specs.declared.limits.TheConstants.{MOMENT_BOUND};
    ghost use Rattle.usp_rules.specs.Asks.{AskValue};

    ghost Value = { AskValue };

    ghost view = { λ a. record {
      uri = a.uri.now;
      cookie = option_copied a.cookie;
      moment = a.moment;
    } };

    ghost invariant = { λ a. a.moment < MOMENT_BOUND };
}

impl<'a> Ask<'a> {
    /// An ask at a moment in seconds since 1970.
    pub fn new(uri: &'a [u8], cookie: Option<&'a [u8]>, moment: u64) -> Ask<'a>
        requires { moment < MOMENT_BOUND }
        ensures uri { result.uri ≡ uri.now }
        ensures cookie { result.cookie ≡ option_copied cookie.entry }
        ensures moment { result.moment ≡ moment }
    {
        Ask {
            uri,
            cookie,
            moment,
        }
    }

    /// The URI with its package.
    pub fn uri(&self) -> &'a [u8]
        ensures { result.now ≡ self.now.uri }
    {
        self.uri
    }

    /// The token of a cookie.
    pub fn cookie(&self) -> Option<&'a [u8]>
        ensures { option_copied result ≡ self.now.cookie }
    {
        self.cookie
    }

    /// In seconds since 1970, below [`MOMENT_BOUND`](usp_base::MOMENT_BOUND).
    pub fn moment(&self) -> u64
        ensures value { result ≡ self.now.moment }
        ensures bound { result < MOMENT_BOUND }
    {
        self.moment
    }
}
