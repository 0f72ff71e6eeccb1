//! The names of an edge's keys.
ghost use Rattle.std.specs.Prelude.{◌≤◌, All, length};
ghost use Rattle.usp_jws.specs.declared.limits.TheConstants.{MAX_KID};
ghost use Rattle.usp_lab.specs.Named.{AreNamed, HasNamedKeys};

use usp_conf::Conf;
use usp_issue::Route;
use usp_jws::Key;

fn are_named(keys: &[Key])
    ensures { AreNamed keys.now }
{
    for key in keys {
        let _ = key.kid();
    }
}

fn are_named_for_routes(routes: &[Route])
    ensures { All (λ route. length route.key.kid ≤ MAX_KID) routes.now }
{
    for route in routes {
        let _ = route.key().kid();
    }
}

/// Says that the names of the keys are within their limit, from which the length of what the edge issues follows.
pub(crate) fn has_named_keys(conf: &Conf)
    ensures { HasNamedKeys conf.now }
{
    are_named(conf.site().profile().ring.keys());
    are_named_for_routes(conf.site().routes().rows());
}
