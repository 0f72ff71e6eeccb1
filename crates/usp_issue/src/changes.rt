//! Claims with one of them replaced.

ghost use Rattle.std.specs.Prelude.{◌≡◌, ◌≤◌, ◌+◌, length, IfOk};
ghost use Rattle.std.specs.Fmt.{decimal};
ghost use Rattle.std.specs.Option.{is_some};
ghost use Rattle.usp_claims.specs.Changes.{with_claim};
ghost use Rattle.usp_claims.specs.Table.{IsClaimSet, claim, name_of};
ghost use Rattle.usp_claims.specs.declared.limits.TheConstants.{MAX_CANONICAL, MAX_NUMBER};
ghost use Rattle.usp_claims.specs.declared.table.ClaimName.TheVariants.{Aud, Exp, Iat, Iss};
ghost use Rattle.usp_json.specs.Canon.{canon, canon_members};
ghost use Rattle.usp_json.specs.declared.value.Json.TheVariants.{Num, Str};
ghost use Rattle.usp_issue.specs.Renewals.{with_present};
ghost use Rattle.usp_issue.specs.Resignings.{for_target};
ghost use Rattle.usp_issue.specs.declared.limits.TheConstants.{CONTAINER_GROWTH, IDENTITY_GROWTH, MAX_CHANGED, MOMENT_GROWTH};

use crate::{NoMemory, Route};
use std::alloc::Global;
use usp_claims::{ClaimName, Claims};
use usp_json::{Json, NumText, Text};
use usp_jws::{Key, MAX_IDENTITY};
use usp_rules::hash_container;
use usp_uri::Uri;

fn has_claim(claims: &Claims, name: ClaimName) -> bool
    ensures { result ≡ is_some (claim (name_of name) claims.now) }
{
    claims.value(name.name().as_bytes()).is_some()
}

// The claims with that value for one of them.
#[tactic(auto, using(crate::proofs::Fitting::growth))]
fn with_claim(
    alloc: Global,
    claims: Claims,
    name: ClaimName,
    value: Json,
) -> Result<Claims, NoMemory>
    requires set { IsClaimSet claims → IsClaimSet (with_claim name value claims) }
    requires short { length (canon_members claims)
        + (length (name_of name) + 4 + length (canon value)) ≤ MAX_CANONICAL }
    ensures changed { IfOk result (λ changed. changed ≡ with_claim name value claims) }
    ensures growth { IfOk result (λ changed. length (canon_members changed)
        ≤ length (canon_members claims) + (length (name_of name) + 4 + length (canon value))) }
{
    // Says that they are a claim set.
    let _ = claims.members();
    Ok(claims.with(alloc, name, value)?)
}

// The same where the claim is there, and else the claims themselves.
fn with_present(
    alloc: Global,
    claims: Claims,
    name: ClaimName,
    value: Json,
) -> Result<Claims, NoMemory>
    requires set { IsClaimSet claims → IsClaimSet (with_claim name value claims) }
    requires short { length (canon_members claims)
        + (length (name_of name) + 4 + length (canon value)) ≤ MAX_CANONICAL }
    ensures changed { IfOk result (λ changed. changed ≡ with_present name value claims) }
    ensures growth { IfOk result (λ changed. length (canon_members changed)
        ≤ length (canon_members claims) + (length (name_of name) + 4 + length (canon value))) }
{
    if !has_claim(&claims, name) {
        return Ok(claims);
    }
    with_claim(alloc, claims, name, value)
}

// The issuer of a key, as a value.
#[tactic(auto, using(crate::proofs::Fitting::identity_size))]
fn issuer_of(alloc: Global, key: &Key) -> Result<Json, NoMemory>
    ensures value { IfOk result (λ value. value ≡ Str key.now.issuer) }
    ensures short { IfOk result (λ value. length (canon value) ≤ MAX_IDENTITY + 2) }
{
    // Says that it is an identity.
    let _ = key.issuer();
    Ok(Json::Str(Text::of(alloc, key.issuer_text())?))
}

// The audience of a route, as a value.
#[tactic(auto, using(crate::proofs::Fitting::identity_size))]
fn audience_of(alloc: Global, route: &Route) -> Result<Json, NoMemory>
    ensures value { IfOk result (λ value. value ≡ Str route.now.audience) }
    ensures short { IfOk result (λ value. length (canon value) ≤ MAX_IDENTITY + 2) }
{
    Ok(Json::Str(Text::of(alloc, route.audience().text())?))
}

// A moment, as a value.
#[tactic(auto, using(crate::proofs::Fitting::number_short))]
fn moment_of(alloc: Global, moment: u64) -> Result<Json, NoMemory>
    requires { moment ≤ MAX_NUMBER }
    ensures value { IfOk result (λ value. value ≡ Num (decimal moment)) }
    ensures short { IfOk result (λ value. length (canon value) ≤ 16) }
{
    Ok(Json::Num(NumText::whole(alloc, moment)?))
}

// The claims with the issuer of a key, where they have one.
#[tactic(auto, using(crate::proofs::Fitting::issuer_set))]
pub(crate) fn with_issuer(alloc: Global, claims: Claims, key: &Key) -> Result<Claims, NoMemory>
    requires { length (canon_members claims) ≤ MAX_CHANGED }
    ensures changed { IfOk result (λ changed.
        changed ≡ with_present Iss (Str key.now.issuer) claims) }
    ensures growth { IfOk result (λ changed.
        length (canon_members changed) ≤ length (canon_members claims) + IDENTITY_GROWTH) }
{
    let issuer = issuer_of(alloc, key)?;
    with_present(alloc, claims, ClaimName::Iss, issuer)
}

// The claims with the audience of a route, where they have one.
#[tactic(auto, using(crate::proofs::Fitting::audience_set))]
pub(crate) fn with_audience(
    alloc: Global,
    claims: Claims,
    route: &Route,
) -> Result<Claims, NoMemory>
    requires { length (canon_members claims) ≤ MAX_CHANGED }
    ensures changed { IfOk result (λ changed.
        changed ≡ with_present Aud (Str route.now.audience) claims) }
    ensures growth { IfOk result (λ changed.
        length (canon_members changed) ≤ length (canon_members claims) + IDENTITY_GROWTH) }
{
    let audience = audience_of(alloc, route)?;
    with_present(alloc, claims, ClaimName::Aud, audience)
}

// The claims signed at the moment, where they say when they were.
#[tactic(auto, using(crate::proofs::Fitting::moment_set))]
pub(crate) fn with_moment(alloc: Global, claims: Claims, moment: u64) -> Result<Claims, NoMemory>
    requires short { length (canon_members claims) ≤ MAX_CHANGED }
    requires early { moment ≤ MAX_NUMBER }
    ensures changed { IfOk result (λ changed.
        changed ≡ with_present Iat (Num (decimal moment)) claims) }
    ensures growth { IfOk result (λ changed.
        length (canon_members changed) ≤ length (canon_members claims) + MOMENT_GROWTH) }
{
    let value = moment_of(alloc, moment)?;
    with_present(alloc, claims, ClaimName::Iat, value)
}

// The claims that expire at the moment.
#[tactic(auto, using(crate::proofs::Fitting::expiry_set))]
pub(crate) fn with_expiry(alloc: Global, claims: Claims, moment: u64) -> Result<Claims, NoMemory>
    requires short { length (canon_members claims) ≤ MAX_CHANGED }
    requires early { moment ≤ MAX_NUMBER }
    ensures changed { IfOk result (λ changed.
        changed ≡ with_claim Exp (Num (decimal moment)) claims) }
    ensures growth { IfOk result (λ changed.
        length (canon_members changed) ≤ length (canon_members claims) + MOMENT_GROWTH) }
{
    let value = moment_of(alloc, moment)?;
    with_claim(alloc, claims, ClaimName::Exp, value)
}

// The claims whose container is the target alone.
#[tactic(auto, using(crate::proofs::Fitting::container_set, crate::proofs::Fitting::container_size))]
pub(crate) fn with_container(
    alloc: Global,
    claims: Claims,
    target: &Uri,
) -> Result<Claims, NoMemory>
    requires { length (canon_members claims) ≤ MAX_CHANGED }
    ensures changed { IfOk result (λ changed. changed ≡ for_target target.now claims) }
    ensures growth { IfOk result (λ changed.
        length (canon_members changed) ≤ length (canon_members claims) + CONTAINER_GROWTH) }
{
    let container = hash_container(alloc, target)?;
    with_claim(alloc, claims, ClaimName::Uc, Json::Str(container))
}
