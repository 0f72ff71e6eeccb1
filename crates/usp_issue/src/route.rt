//! Where a request may be sent on.
ghost use Rattle.std.specs.Prelude.{◌≡◌, true};
ghost use Rattle.usp_jws.specs.Letters.{is_identity};
ghost use Rattle.usp_issue.specs.Routes.{RouteValue};

use std::marker::Model;
use usp_json::Text;
use usp_jws::Key;
use usp_uri::Place;

/// Where requests for contents of a path's prefix are sent on, and the key and audience of the tokens
/// signed for them.
#[derive(Drop)]
pub struct Route {
    prefix: Text,
    place: Place,
    key: Key,
    audience: Text,
}

impl Model for Route {
    ghost use Rattle.std.specs.Prelude.{◌≡◌, true};
    ghost use Rattle.usp_jws.specs.Letters.{is_identity};
    ghost use Rattle.usp_issue.specs.Routes.{RouteValue};

    ghost Value = { RouteValue };

    ghost view = { λ r. record { prefix = r.prefix; place = r.place; key = r.key; audience = r.audience } };

    ghost invariant = { λ r. is_identity r.audience ≡ true };
}

impl Route {
    pub fn new(prefix: Text, place: Place, key: Key, audience: Text) -> Route
        requires { is_identity audience ≡ true }
        ensures prefix { result.prefix ≡ prefix }
        ensures place { result.place ≡ place }
        ensures key { result.key ≡ key }
        ensures audience { result.audience ≡ audience }
    {
        Route {
            prefix,
            place,
            key,
            audience,
        }
    }

    /// What a content's path begins with.
    pub fn prefix(&self) -> &Text
        ensures { result.now ≡ self.now.prefix }
    {
        &self.prefix
    }

    /// Where the request is sent.
    pub fn place(&self) -> &Place
        ensures { result.now ≡ self.now.place }
    {
        &self.place
    }

    /// The key of the new token.
    pub fn key(&self) -> &Key
        ensures { result.now ≡ self.now.key }
    {
        &self.key
    }

    /// Whom the new token is for.
    pub fn audience(&self) -> &Text
        ensures value { result.now ≡ self.now.audience }
        ensures identity { is_identity self.now.audience ≡ true }
    {
        &self.audience
    }
}
