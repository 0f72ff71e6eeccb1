//! An edge: what it judges by, its own key, and its routes.
ghost use Rattle.std.specs.Prelude.{◌≡◌, ◌<◌, ◌≤◌, true, length};
ghost use Rattle.usp_issue.specs.Sites.{is_own, site};
ghost use Rattle.usp_issue.specs.declared.limits.TheConstants.{MAX_ROUTES};

use crate::Route;
use std::marker::Model;
use usp_base::Rows;
use usp_rules::Profile;

/// What an edge judges by, the place of its own key in the ring, and its routes.
#[derive(Drop)]
pub struct Site {
    profile: Profile,
    sign: usize,
    routes: Rows<Route>,
}

impl Model for Site {
    ghost use Rattle.std.specs.Coded.{codes};
    ghost use Rattle.usp_json.specs.contracts.value.Json as e;
    ghost use Rattle.usp_issue.specs.Sites.{SiteValue, IsSite, site};

    ghost Value = { SiteValue };

    ghost coded = { Prim.hlevel (codes, e.the_row.coded) };

    ghost view = { λ s. site s.profile s.sign s.routes };

    ghost invariant = { λ s. IsSite (site s.profile s.sign s.routes) };
}

impl Site {
    pub fn new(profile: Profile, sign: usize, routes: Rows<Route>) -> Site
        requires within { sign < length profile.ring }
        requires own { is_own profile.ring profile.issuers sign ≡ true }
        requires few { length routes ≤ MAX_ROUTES }
        ensures { result ≡ site profile sign routes }
    {
        Site {
            profile,
            sign,
            routes,
        }
    }

    /// What requests are judged by.
    pub fn profile(&self) -> &Profile
        ensures { result.now ≡ self.now.profile }
    {
        &self.profile
    }

    /// The place of the edge's own key in the ring.
    pub fn sign(&self) -> usize
        ensures value { result ≡ self.now.sign }
        ensures within { self.now.sign < length self.now.profile.ring }
        ensures own { is_own self.now.profile.ring self.now.profile.issuers self.now.sign ≡ true }
    {
        self.sign
    }

    /// The routes, in the order in which they are tried.
    pub fn routes(&self) -> &Rows<Route>
        ensures value { result.now ≡ self.now.routes }
        ensures few { length self.now.routes ≤ MAX_ROUTES }
    {
        &self.routes
    }
}
