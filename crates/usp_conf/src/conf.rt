//! A configuration.
ghost use Rattle.std.specs.Prelude.{◌≡◌, ◌≤◌, true};
ghost use Rattle.usp_jws.specs.Letters.{is_identity};
ghost use Rattle.usp_conf.specs.Letters.{is_scheme};
ghost use Rattle.usp_conf.specs.Values.{conf};
ghost use Rattle.usp_nonce.specs.declared.limits.TheConstants.{MAX_ROOM};

use std::marker::Model;
use usp_issue::Site;
use usp_json::Text;

/// The configuration of an edge.
#[derive(Drop)]
pub struct Conf {
    edge: Text,
    scheme: Text,
    room: u32,
    site: Site,
}

impl Model for Conf {
    ghost use Rattle.std.specs.Coded.{codes};
    ghost use Rattle.usp_json.specs.contracts.value.Json as e;
    ghost use Rattle.usp_conf.specs.Values.{ConfValue, IsConf, conf};

    ghost Value = { ConfValue };

    ghost coded = { Prim.hlevel (codes, e.the_row.coded) };

    ghost view = { λ c. conf c.edge c.scheme c.room c.site };

    ghost invariant = { λ c. IsConf (conf c.edge c.scheme c.room c.site) };
}

impl Conf {
    pub(crate) fn new(edge: Text, scheme: Text, room: u32, site: Site) -> Conf
        requires edge { is_identity edge ≡ true }
        requires scheme { is_scheme scheme ≡ true }
        requires room { (1 ≤ room) × (room ≤ MAX_ROOM) }
        ensures { result ≡ conf edge scheme room site }
    {
        Conf {
            edge,
            scheme,
            room,
            site,
        }
    }

    /// The name of the edge.
    pub fn edge(&self) -> &Text
        ensures value { result.now ≡ self.now.edge }
        ensures identity { is_identity self.now.edge ≡ true }
    {
        &self.edge
    }

    /// The scheme of the requests that the edge gets: `http` or `https`.
    pub fn scheme(&self) -> &Text
        ensures value { result.now ≡ self.now.scheme }
        ensures scheme { is_scheme self.now.scheme ≡ true }
    {
        &self.scheme
    }

    /// How many nonces the edge keeps at a time.
    pub fn room(&self) -> u32
        ensures value { result ≡ self.now.room }
        ensures bounds { (1 ≤ self.now.room) × (self.now.room ≤ MAX_ROOM) }
    {
        self.room
    }

    /// What the edge judges and signs by.
    pub fn site(&self) -> &Site
        ensures { result.now ≡ self.now.site }
    {
        &self.site
    }
}
