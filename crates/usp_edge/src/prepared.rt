//! What a reply needs, made before the nonce call: behind that, a want of memory would use the nonce up for nothing.
ghost use Rattle.std.specs.Prelude.{◌≡◌, ◌≤◌, ◌<◌, codes, IfOk, length};
ghost use Rattle.std.specs.Option.{unwrap_or};
ghost use Rattle.usp_base.specs.declared.limits.TheConstants.{MOMENT_BOUND};
ghost use Rattle.usp_claims.specs.Table.{number_claim};
ghost use Rattle.usp_edge.specs.Outcomes.{cookie_for};
ghost use Rattle.usp_edge.specs.Requests.{IsPrepared, IsRenewal, IsShort};

use crate::issuing::{renewed_token, sent_on};
use crate::judgement::Passed;
use crate::memory::NoMemory;
use crate::request::Request;
use usp_base::Octets;
use usp_claims::Claims;
use usp_cookie::{cookie_path, set_cookie};
use usp_issue::Signed;
use usp_jws::Token;

/// A renewed token with the value of the field that stores it.
#[derive(Drop)]
pub(crate) struct Renewal {
    pub token: Token,
    pub cookie: Octets,
}

/// What a request is served, unless its nonce is refused.
#[derive(Drop)]
pub(crate) enum Prepared {
    /// The place of the route, and the content signed for it.
    Redirect(u16, Signed),
    /// The object, and the token that is renewed where it is there.
    Show(Option<Renewal>),
}

// How many segments of a path a renewed cookie is for (RFC 9246 section 2.1.14).
fn depth_of(claims: &Claims) -> u64
    ensures { result ≡ unwrap_or (number_claim (codes "cdnistd") claims.now) 0 }
{
    match claims.std() {
        None => 0,
        Some(depth) => depth,
    }
}

fn cookie_for(request: &Request<'_>, passed: &Passed, token: &Token) -> Result<Octets, NoMemory>
    ensures { IfOk result (λ cookie. cookie
        ≡ cookie_for request.now.conf.now passed.now.claims passed.now.content token.now) }
{
    let name = &request.conf.site().profile().attribute;
    let path = cookie_path(request.alloc, &passed.content, depth_of(&passed.claims))?;
    let cookie = set_cookie(request.alloc, name, token, &path)?;
    Ok(Octets::of(cookie))
}

fn renewal_of(request: &Request<'_>, passed: &Passed) -> Result<Option<Renewal>, NoMemory>
    requires short { IsShort passed.now }
    requires early { passed.now.moment < MOMENT_BOUND }
    ensures { IfOk result (λ renewal. IsRenewal request.now.conf.now passed.now.claims
        passed.now.content passed.now.moment renewal) }
{
    match renewed_token(request, passed)? {
        None => Ok(None),
        Some(token) => {
            let cookie = cookie_for(request, passed, &token)?;
            Ok(Some(Renewal { token, cookie }))
        }
    }
}

/// What a request is served, unless its nonce is refused.
pub(crate) fn prepare(request: &Request<'_>, passed: &Passed) -> Result<Prepared, NoMemory>
    requires short { IsShort passed.now }
    requires early { passed.now.moment < MOMENT_BOUND }
    ensures { IfOk result (λ prepared. IsPrepared request.now.conf.now passed.now.claims
        passed.now.content passed.now.moment prepared) }
{
    match sent_on(request, passed)? {
        Some((place, signed)) => Ok(Prepared::Redirect(place, signed)),
        None => Ok(Prepared::Show(renewal_of(request, passed)?)),
    }
}
