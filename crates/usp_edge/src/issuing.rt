//! Tokens that an edge issues.
ghost use Rattle.std.specs.Prelude.{◌≡◌, ◌≤◌, ◌<◌, IfOk, length};
ghost use Rattle.usp_base.specs.declared.limits.TheConstants.{MOMENT_BOUND};
ghost use Rattle.usp_edge.specs.Outcomes.{RenewsWithOwn, Sends};
ghost use Rattle.usp_edge.specs.Requests.{IsShort};

use crate::judgement::Passed;
use crate::memory::NoMemory;
use crate::request::Request;
use usp_issue::{Signed, Use, redirect, renewed};
use usp_jws::Token;

fn use_of(passed: &Passed) -> Use<'_>
    ensures claims { result.claims.now ≡ passed.now.claims }
    ensures content { result.content.now ≡ passed.now.content }
    ensures moment { result.moment ≡ passed.now.moment }
{
    Use {
        claims: &passed.claims,
        content: &passed.content,
        moment: passed.moment,
    }
}

/// The place of the first route that takes a request, and the content signed for it (RFC 9246 section 2). None
/// exactly where there is no such route.
pub(crate) fn sent_on(
    request: &Request<'_>,
    passed: &Passed,
) -> Result<Option<(u16, Signed)>, NoMemory>
    requires short { IsShort passed.now }
    requires early { passed.now.moment < MOMENT_BOUND }
    ensures { IfOk result (λ to. Sends request.now.conf.now passed.now.claims
        passed.now.content passed.now.moment to) }
{
    let site = request.conf.site();
    // Most edges have no route.
    if site.routes().rows().is_empty() {
        return Ok(None);
    }
    match redirect(request.alloc, site, &use_of(passed))? {
        None => Ok(None),
        Some((place, signed)) => Ok(Some((place as u16, signed))),
    }
}

/// The token renewed with the edge's own key (RFC 9246 section 3). None exactly where the claims are not renewed.
pub(crate) fn renewed_token(
    request: &Request<'_>,
    passed: &Passed,
) -> Result<Option<Token>, NoMemory>
    requires short { IsShort passed.now }
    requires early { passed.now.moment < MOMENT_BOUND }
    ensures { IfOk result (λ issued. RenewsWithOwn request.now.conf.now passed.now.claims
        passed.now.content passed.now.moment issued) }
{
    let site = request.conf.site();
    let key = &site.profile().ring.keys()[site.sign()];
    Ok(renewed(request.alloc, &use_of(passed), key)?)
}
