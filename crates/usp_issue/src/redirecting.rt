//! Redirection: the first route that a request may be sent on by (RFC 9246 section 2).

ghost use Rattle.std.specs.Prelude.{◌≡◌, ◌⊎◌, ◌≤◌, ◌<◌, ◌+◌, ◌∷◌, List, Option, Some, ℕ, length, IfOk, IfSome, MatchOption};
ghost use Rattle.std.specs.Option.{is_some};
ghost use Rattle.usp_base.specs.Cuts.{after_prefix};
ghost use Rattle.usp_base.specs.declared.limits.TheConstants.{MOMENT_BOUND};
ghost use Rattle.usp_json.specs.Canon.{canon_members};
ghost use Rattle.usp_uri.specs.Components.{path_in};
ghost use Rattle.usp_issue.specs.Redirections.{IsPresent, IsTooLong, SendsFrom, Signs};
ghost use Rattle.usp_issue.specs.Routes.{RouteValue};
ghost use Rattle.usp_issue.specs.declared.limits.TheConstants.{MAX_CLAIMS, MAX_TOKEN};

use crate::resigning::resigned;
use crate::{NoMemory, Route, Signed, Site, Use};
use std::alloc::Global;
use usp_base::after_prefix;
use usp_package::AttrName;
use usp_uri::Uri;

// Whether the content's path has the route's prefix.
fn has_prefix(content: &Uri, route: &Route) -> bool
    ensures { result ≡ is_some (after_prefix route.now.prefix (path_in content.now)) }
{
    after_prefix(content.path(), route.prefix().text().as_bytes()).is_some()
}

// What is signed for the route. None where it is refused.
#[tactic(auto, using(crate::proofs::Refusing::refused))]
fn signed_for(
    alloc: Global,
    name: &AttrName,
    used: &Use<'_>,
    route: &Route,
) -> Result<Option<Signed>, NoMemory>
    requires short { length (canon_members used.now.claims.now) ≤ MAX_CLAIMS }
    requires early { used.now.moment < MOMENT_BOUND }
    ensures signed { IfOk result (λ signed. MatchOption signed
        (IsTooLong name.now used.now.claims.now used.now.content.now used.now.moment route.now
        ⊎ IsPresent name.now used.now.content.now route.now)
        (λ signed. Signs name.now used.now.claims.now used.now.content.now used.now.moment
        route.now signed)) }
    ensures short { IfOk result (λ signed. IfSome signed (λ signed.
        length signed.token ≤ MAX_TOKEN)) }
{
    let fault = match resigned(alloc, name, used, route) {
        Ok(signed) => return Ok(Some(signed)),
        Err(fault) => fault,
    };
    if fault.is_memory() {
        return Err(NoMemory);
    }
    Ok(None)
}

// What is signed for the route, where the path has its prefix. None where the request is sent elsewhere.
#[tactic(auto, using(crate::proofs::Issued::lacks_prefix, crate::proofs::Issued::route_refuses, crate::proofs::Issued::route_signs))]
fn sent_by(
    alloc: Global,
    name: &AttrName,
    used: &Use<'_>,
    route: &Route,
) -> Result<Option<Signed>, NoMemory>
    requires short { length (canon_members used.now.claims.now) ≤ MAX_CLAIMS }
    requires early { used.now.moment < MOMENT_BOUND }
    ensures sent { (place : ℕ) (routes : List RouteValue) → IfOk result (λ sent. MatchOption sent
        ((found : Option (ℕ × Signed)) → SendsFrom name.now used.now.claims.now used.now.content.now
        used.now.moment (place + 1) routes found
        → SendsFrom name.now used.now.claims.now used.now.content.now used.now.moment place
        (route.now ∷ routes) found)
        (λ signed. SendsFrom name.now used.now.claims.now used.now.content.now used.now.moment place
        (route.now ∷ routes) (Some (place, signed)))) }
    ensures short { IfOk result (λ sent. IfSome sent (λ signed. length signed.token ≤ MAX_TOKEN)) }
{
    if !has_prefix(used.content, route) {
        return Ok(None);
    }
    signed_for(alloc, name, used, route)
}

/// The place of the first route whose prefix the content's path has and for which the content can be
/// signed again, and what is signed for it, with the name of the site's attribute. None exactly where
/// there is no such route.
pub fn redirect(
    alloc: Global,
    site: &Site,
    used: &Use<'_>,
) -> Result<Option<(usize, Signed)>, NoMemory>
    requires short { length (canon_members used.now.claims.now) ≤ MAX_CLAIMS }
    requires early { used.now.moment < MOMENT_BOUND }
    ensures sent { IfOk result (λ sent. SendsFrom site.now.profile.attribute used.now.claims.now
        used.now.content.now used.now.moment 0 site.now.routes sent) }
    ensures short { IfOk result (λ sent. IfSome sent (λ sent. length sent.1.token ≤ MAX_TOKEN)) }
{
    let name = &site.profile().attribute;
    let routes = site.routes().rows();
    for place in 0..routes.len() {
        if let Some(signed) = sent_by(alloc, name, used, &routes[place])? {
            return Ok(Some((place, signed)));
        }
    }
    Ok(None)
}
