//! Renewal: a token for one more period (RFC 9246 section 3).

ghost use Rattle.std.specs.Prelude.{◌≡◌, ◌≤◌, ◌<◌, length, IfOk, IfSome};
ghost use Rattle.usp_base.specs.declared.limits.TheConstants.{MOMENT_BOUND};
ghost use Rattle.usp_claims.specs.declared.limits.TheConstants.{MAX_PERIOD};
ghost use Rattle.usp_json.specs.Canon.{canon_members};
ghost use Rattle.usp_issue.specs.Renewals.{Renews, for_period, is_deep_enough, is_renewing, renew};
ghost use Rattle.usp_issue.specs.declared.limits.TheConstants.{MAX_CHANGED, MAX_CLAIMS, MAX_TOKEN};

use crate::changes::{with_expiry, with_issuer, with_moment};
use crate::sealing::seal_claims;
use crate::{NoMemory, Use};
use std::alloc::Global;
use usp_claims::Claims;
use usp_jws::{Key, Token};
use usp_uri::Uri;

fn is_renewing(claims: &Claims) -> bool
    ensures { result ≡ is_renewing claims.now }
{
    match claims.stt() {
        None => false,
        Some(transport) => transport == 1,
    }
}

fn is_deep_enough(claims: &Claims, content: &Uri) -> bool
    ensures { result ≡ is_deep_enough claims.now content.now }
{
    claims.std().unwrap_or(0) <= content.segment_count() as u64
}

// The claims for one more period.
fn for_period(alloc: Global, used: &Use<'_>, key: &Key, period: u64) -> Result<Claims, NoMemory>
    requires short { length (canon_members used.now.claims.now) ≤ MAX_CLAIMS }
    requires early { used.now.moment < MOMENT_BOUND }
    requires period { period ≤ MAX_PERIOD }
    ensures renewed { IfOk result (λ claims.
        claims ≡ for_period used.now.claims.now used.now.moment key.now period) }
    ensures short { IfOk result (λ claims. length (canon_members claims) ≤ MAX_CHANGED) }
{
    let claims = used.claims.copy(alloc)?;
    let claims = with_issuer(alloc, claims, key)?;
    let claims = with_moment(alloc, claims, used.moment)?;
    with_expiry(alloc, claims, used.moment + period)
}

// The renewed claims. None where they are not renewed.
#[tactic(auto, using(crate::proofs::Replacing::period_below))]
fn renew(alloc: Global, used: &Use<'_>, key: &Key) -> Result<Option<Claims>, NoMemory>
    requires short { length (canon_members used.now.claims.now) ≤ MAX_CLAIMS }
    requires early { used.now.moment < MOMENT_BOUND }
    ensures renewed { IfOk result (λ renewed.
        renewed ≡ renew used.now.claims.now used.now.content.now used.now.moment key.now) }
    ensures short { IfOk result (λ renewed. IfSome renewed (λ claims.
        length (canon_members claims) ≤ MAX_CHANGED)) }
{
    if !is_renewing(used.claims) {
        return Ok(None);
    }
    if !is_deep_enough(used.claims, used.content) {
        return Ok(None);
    }
    let Some(period) = used.claims.ets() else {
        return Ok(None);
    };
    Ok(Some(for_period(alloc, used, key, period)?))
}

/// The token for one more period, sealed with the edge's own key. None exactly where `cdnistt` is not 1,
/// where the content's path has fewer segments than `cdnistd` says, and where there is no `cdniets`.
///
/// `exp` becomes the moment and the period, and goes last where there was none; `iss` and `iat` become
/// the key's issuer and the moment where they are there. All else stays, `jti` too.
#[tactic(auto, using(crate::proofs::Issued::is_renewed))]
pub fn renewed(alloc: Global, used: &Use<'_>, key: &Key) -> Result<Option<Token>, NoMemory>
    requires short { length (canon_members used.now.claims.now) ≤ MAX_CLAIMS }
    requires early { used.now.moment < MOMENT_BOUND }
    ensures renewed { IfOk result (λ token.
        Renews used.now.claims.now used.now.content.now used.now.moment key.now token) }
    ensures short { IfOk result (λ token. IfSome token (λ token. length token ≤ MAX_TOKEN)) }
{
    match renew(alloc, used, key)? {
        None => Ok(None),
        Some(claims) => Ok(Some(seal_claims(alloc, key, &claims)?)),
    }
}
