//! Signing again: a token for the place that a request is sent on to (RFC 9246 section 2).

ghost use Rattle.std.specs.Prelude.{◌≡◌, ◌≢◌, ◌↔◌, ◌≤◌, ◌<◌, ◌+◌, List, ℕ, length, IsTrue, IfOk, IfErr, Ok, Err};
ghost use Rattle.usp_base.specs.declared.limits.TheConstants.{MOMENT_BOUND};
ghost use Rattle.usp_json.specs.Canon.{canon_members};
ghost use Rattle.usp_json.specs.declared.value.Members.{Members};
ghost use Rattle.usp_package.specs.Package.{embedded, nothing, package_of};
ghost use Rattle.usp_rules.specs.Containers.{MeetsRegex};
ghost use Rattle.usp_rules.specs.Kinds.{ReadsAs};
ghost use Rattle.usp_uri.specs.Components.{query_in};
ghost use Rattle.usp_uri.specs.Origin.{moved_of};
ghost use Rattle.usp_issue.specs.Redirections.{RefusesSigning, Signs};
ghost use Rattle.usp_issue.specs.Resignings.{FindsTarget, IsResigned, Resigns, for_route, target_of};
ghost use Rattle.usp_issue.specs.declared.limits.TheConstants.{CONTAINER_GROWTH, MAX_CHANGED, MAX_CLAIMS, MAX_TOKEN};

use crate::changes::{with_audience, with_container, with_issuer, with_moment};
use crate::sealing::seal_claims;
use crate::{IssueFault, NoMemory, Route, Signed, Use};
use std::alloc::Global;
use usp_base::Octets;
use usp_claims::Claims;
use usp_jws::Token;
use usp_package::{AttrName, Found, embed, find};
use usp_rules::Container;
use usp_uri::{MAX_LEN, Uri, moved};

// Whether the container is an expression that finds the target.
fn finds(alloc: Global, container: &Container<'_>, target: &Uri) -> Result<bool, NoMemory>
    ensures { (text : List ℕ) → ReadsAs text container.now
        → IfOk result (λ found. IsTrue found ↔ MeetsRegex text target.now) }
{
    match container {
        Container::Regex(_) => Ok(container.meets(alloc, target)?),
        Container::Hash(_) | Container::Refused => Ok(false),
    }
}

fn finds_target(alloc: Global, claims: &Claims, target: &Uri) -> Result<bool, NoMemory>
    ensures { IfOk result (λ found. IsTrue found ↔ FindsTarget claims.now target.now) }
{
    let container = Container::of(alloc, claims.uc())?;
    finds(alloc, &container, target)
}

// The claims for the route.
fn for_route(alloc: Global, claims: Claims, moment: u64, route: &Route) -> Result<Claims, NoMemory>
    requires short { length (canon_members claims) ≤ MAX_CLAIMS + CONTAINER_GROWTH }
    requires early { moment < MOMENT_BOUND }
    ensures routed { IfOk result (λ routed. routed ≡ for_route route.now moment claims) }
    ensures short { IfOk result (λ routed. length (canon_members routed) ≤ MAX_CHANGED) }
{
    let claims = with_issuer(alloc, claims, route.key())?;
    let claims = with_audience(alloc, claims, route)?;
    with_moment(alloc, claims, moment)
}

// The claims that are signed again for the target.
fn resign(alloc: Global, used: &Use<'_>, route: &Route, target: &Uri) -> Result<Claims, NoMemory>
    requires short { length (canon_members used.now.claims.now) ≤ MAX_CLAIMS }
    requires early { used.now.moment < MOMENT_BOUND }
    requires target { target.now ≡ target_of used.now.content.now route.now }
    ensures resigned { IfOk result (λ claims.
        Resigns used.now.claims.now used.now.content.now used.now.moment route.now claims) }
    ensures short { IfOk result (λ claims. length (canon_members claims) ≤ MAX_CHANGED) }
{
    let claims = used.claims.copy(alloc)?;
    if finds_target(alloc, used.claims, target)? {
        return for_route(alloc, claims, used.moment, route);
    }
    let claims = with_container(alloc, claims, target)?;
    for_route(alloc, claims, used.moment, route)
}

// The token that is signed for the target.
#[tactic(auto, using(crate::proofs::Issued::is_resigned))]
fn token_for(alloc: Global, used: &Use<'_>, route: &Route, target: &Uri) -> Result<Token, NoMemory>
    requires short { length (canon_members used.now.claims.now) ≤ MAX_CLAIMS }
    requires early { used.now.moment < MOMENT_BOUND }
    requires target { target.now ≡ target_of used.now.content.now route.now }
    ensures resigned { IfOk result (λ token.
        IsResigned used.now.claims.now used.now.content.now used.now.moment route.now token) }
    ensures short { IfOk result (λ token. length token ≤ MAX_TOKEN) }
{
    // Says that it is an identity.
    let _ = route.audience();
    let claims = resign(alloc, used, route, target)?;
    seal_claims(alloc, route.key(), &claims)
}

// The content at the route's place.
#[tactic(auto, using(crate::proofs::Refusing::moved_too_long))]
fn target_at(alloc: Global, content: &Uri, route: &Route) -> Result<Uri, IssueFault>
    ensures moved { IfOk result (λ target. moved_of content.now route.now.place ≡ Ok target) }
    ensures refused { (name : List ℕ) (members : Members) (moment : ℕ) → IfErr result (λ fault.
        RefusesSigning fault name members content.now moment route.now) }
{
    let fault = match moved(alloc, content, route.place()) {
        Ok(target) => return Ok(target),
        Err(fault) => fault,
    };
    if fault.is_memory() {
        return Err(IssueFault::NoMemory);
    }
    Err(IssueFault::TooLong)
}

// Whether the URI has no package.
fn is_bare(name: &AttrName, uri: &Uri) -> bool
    ensures { IsTrue result ↔ package_of name.now uri.now ≡ nothing }
{
    match find(name, uri.text()) {
        Found::None => true,
        Found::Bad { .. } => false,
        Found::At { .. } => false,
    }
}

// The target with the token as its package.
fn location_of(
    alloc: Global,
    name: &AttrName,
    target: &Uri,
    token: &Token,
) -> Result<Octets, NoMemory>
    requires { package_of name.now target.now ≡ nothing }
    ensures { IfOk result (λ location.
        location ≡ embedded name.now target.now (query_in target.now) token.now) }
{
    Ok(Octets::of(embed(alloc, name, target, token.text())?))
}

/// The content signed again for the route: the target, which is the content at the route's place, the
/// token, and the target with that token as the package of this name.
///
/// `iss`, `aud` and `iat` become the issuer of the route's key, the route's audience and the moment,
/// each where it is there. The container stays where it is an expression that finds the target, and is
/// the hash of the target else. All else stays, `exp`, `nbf` and `jti` too.
///
/// # Errors
///
/// `TooLong`, where the target is longer than a URI may be, or has no package and the location is.
/// `Present`, where the target has a package, which may be a bad one. Else want of memory.
#[tactic(auto, using(crate::proofs::Refusing::moved_is, crate::proofs::Issued::is_signed, crate::proofs::Issued::is_too_long))]
pub fn resigned(
    alloc: Global,
    name: &AttrName,
    used: &Use<'_>,
    route: &Route,
) -> Result<Signed, IssueFault>
    requires short { length (canon_members used.now.claims.now) ≤ MAX_CLAIMS }
    requires early { used.now.moment < MOMENT_BOUND }
    ensures signed { IfOk result (λ signed. Signs name.now used.now.claims.now used.now.content.now
        used.now.moment route.now signed) }
    ensures short { IfOk result (λ signed. length signed.token ≤ MAX_TOKEN) }
    ensures refused { IfErr result (λ fault. RefusesSigning fault name.now used.now.claims.now
        used.now.content.now used.now.moment route.now) }
{
    let target = target_at(alloc, used.content, route)?;
    if !is_bare(name, &target) {
        return Err(IssueFault::Present);
    }
    let token = token_for(alloc, used, route, &target)?;
    let location = location_of(alloc, name, &target, &token)?;
    if location.bytes().len() > MAX_LEN {
        return Err(IssueFault::TooLong);
    }
    Ok(Signed {
        target,
        token,
        location,
    })
}
