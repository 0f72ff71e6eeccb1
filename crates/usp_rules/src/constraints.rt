//! What the claims of a verified token want.
ghost use Rattle.std.specs.Prelude.{◌≡◌, ◌<◌, ◌↔◌, IsTrue, IfOk, codes, false};
ghost use Rattle.std.specs.List.{list_any};
ghost use Rattle.std.specs.Option.{option_copied, option_map_or};
ghost use Rattle.std.specs.Str.{bytes_eq};
ghost use Rattle.usp_base.specs.declared.limits.TheConstants.{MOMENT_BOUND};
ghost use Rattle.usp_claims.specs.Table.{claim, is_audience};
ghost use Rattle.usp_rules.specs.Constraints.{IsContained, is_begun, is_critical_met, is_for, is_issued, is_plain, is_renewable, is_unexpired, is_version_1, path_of};
ghost use Rattle.usp_rules.specs.Rules.{IsFirst, Wants, constraints};

use crate::critical::{Critical, are_understood};
use crate::terms::Terms;
use crate::{Container, NoMemory, Rule};
use std::alloc::Global;
use usp_base::Rows;
use usp_claims::Claims;
use usp_ext::Facts;
use usp_json::Text;
use usp_jws::has_identity;
use usp_uri::Uri;

fn is_version_1(claims: &Claims) -> bool
    ensures { result ≡ is_version_1 claims.now }
{
    match claims.version() {
        None => true,
        Some(version) => version == 1,
    }
}

fn path_of(content: Option<&Uri>) -> &[u8]
    ensures { result.now ≡ path_of (option_copied content.entry) }
{
    match content {
        None => &[],
        Some(content) => content.path(),
    }
}

fn is_critical_met(
    terms: &Terms<'_>,
    content: Option<&Uri>,
    claims: &Claims,
) -> Result<bool, NoMemory>
    requires { terms.now.moment < MOMENT_BOUND }
    ensures { IfOk result (λ met. met ≡
        is_critical_met terms.now.profile.now.extensions (option_copied content.entry) claims.now) }
{
    let Some(names) = claims.crit() else {
        return Ok(true);
    };
    let critical = Critical {
        kit: terms.kit,
        extensions: &terms.profile.extensions,
        facts: Facts {
            path: path_of(content),
            moment: terms.moment,
        },
        claims,
    };
    are_understood(terms.alloc, &critical, names)
}

fn is_plain(claims: &Claims) -> bool
    ensures { result ≡ is_plain claims.now }
{
    !claims.has_encrypted()
}

fn is_issued(issuers: &Rows<Text>, issuer: &[u8], claims: &Claims) -> bool
    ensures { result ≡ is_issued issuers.now issuer.now claims.now }
{
    match claims.iss() {
        None => true,
        Some(iss) => has_identity(issuers.rows(), iss) && issuer == iss,
    }
}

// Whether the audience is this identity, or lists it.
fn has_audience(claims: &Claims, identity: &Text) -> bool
    ensures { result
        ≡ option_map_or (is_audience identity.now) (claim (codes "aud") claims.now) false }
{
    claims.aud_has(identity.text().as_bytes()).unwrap_or(false)
}

// Whether the audience is one of these identities, or lists one.
fn has_one(audience: &Rows<Text>, claims: &Claims) -> bool
    ensures { result ≡ list_any
        (λ identity. option_map_or (is_audience identity) (claim (codes "aud") claims.now) false)
        audience.now }
{
    audience
        .rows()
        .iter()
        .any(|identity| has_audience(claims, identity))
}

#[tactic(auto, using(crate::proofs::Wanted::is_for_those))]
fn is_for(audience: &Rows<Text>, claims: &Claims) -> bool
    ensures { result ≡ is_for audience.now claims.now }
{
    match claims.value(b"aud") {
        None => true,
        Some(_) => has_one(audience, claims),
    }
}

fn is_begun(claims: &Claims, moment: u64) -> bool
    ensures { result ≡ is_begun moment claims.now }
{
    match claims.nbf() {
        None => true,
        Some(nbf) => nbf <= moment,
    }
}

fn is_unexpired(claims: &Claims, moment: u64) -> bool
    ensures { result ≡ is_unexpired moment claims.now }
{
    match claims.exp() {
        None => true,
        Some(exp) => moment < exp,
    }
}

fn is_renewable(claims: &Claims) -> bool
    ensures { result ≡ is_renewable claims.now }
{
    match claims.stt() {
        None => true,
        Some(transport) => transport == 0 || (transport == 1 && claims.ets().is_some()),
    }
}

/// Whether there is a content that the container meets.
pub fn is_contained(alloc: Global, claims: &Claims, content: Option<&Uri>) -> Result<bool, NoMemory>
    ensures { IfOk result (λ met.
        IsTrue met ↔ IsContained (option_copied content.entry) claims.now) }
{
    let Some(content) = content else {
        return Ok(false);
    };
    let container = Container::of(alloc, claims.uc())?;
    container.meets(alloc, content)
}

/// The first of the rules on claims that does not have what it wants, where the key that verifies has this
/// issuer.
pub fn first_failing(
    terms: &Terms<'_>,
    issuer: &[u8],
    claims: &Claims,
    content: Option<&Uri>,
) -> Result<Option<Rule>, NoMemory>
    requires { terms.now.moment < MOMENT_BOUND }
    ensures { IfOk result (λ found. IsFirst
        (λ rule. Wants rule terms.now.profile.now issuer.now claims.now
        (option_copied content.entry) terms.now.moment)
        constraints found) }
{
    if !is_version_1(claims) {
        return Ok(Some(Rule::Version));
    }
    if !is_critical_met(terms, content, claims)? {
        return Ok(Some(Rule::Critical));
    }
    if !is_plain(claims) {
        return Ok(Some(Rule::Encrypted));
    }
    if !is_issued(&terms.profile.issuers, issuer, claims) {
        return Ok(Some(Rule::Issuer));
    }
    if !is_for(&terms.profile.audience, claims) {
        return Ok(Some(Rule::Audience));
    }
    if !is_begun(claims, terms.moment) {
        return Ok(Some(Rule::NotBefore));
    }
    if !is_unexpired(claims, terms.moment) {
        return Ok(Some(Rule::Expired));
    }
    if !is_renewable(claims) {
        return Ok(Some(Rule::Renewal));
    }
    if !is_contained(terms.alloc, claims, content)? {
        return Ok(Some(Rule::Container));
    }
    Ok(None)
}
