//! The first rule that a request breaks.
ghost use Rattle.std.specs.Prelude.{◌≡◌, ◌↔◌, ◌<◌, ◌++◌, List, ℕ, length, IsTrue, None, Ok, Some, IfOk};
ghost use Rattle.std.specs.Result.{result_ok};
ghost use Rattle.usp_base.specs.declared.limits.TheConstants.{MOMENT_BOUND};
ghost use Rattle.usp_jws.specs.Compact.{IsToken};
ghost use Rattle.usp_jws.specs.Parts.{text_of};
ghost use Rattle.usp_package.specs.Package.{bad, carried, nothing};
ghost use Rattle.usp_uri.specs.Faults.{normal_of};
ghost use Rattle.usp_rules.specs.Judging.{Judges, JudgesAll, JudgesBy};
ghost use Rattle.usp_rules.specs.Rules.{constraints, rules_of_parts, rules_of_token};
ghost use Rattle.usp_rules.specs.Tokens.{CarriesClaims, IsVerified};
ghost use Rattle.usp_rules.specs.declared.judged.Judged.TheVariants.{Denied};
ghost use Rattle.usp_rules.specs.declared.profile.Profile.{Profile};

use crate::constraints::first_failing;
use crate::terms::Terms;
use crate::token::{claims_in, header_in};
use crate::{Ask, Judged, NoMemory, Profile, Rule};
use std::alloc::Global;
use usp_claims::Claims;
use usp_ext::Kit;
use usp_jws::{DecodedToken, Parts, TokenRef, decode, verifier};
use usp_package::{Found, concatenate, find};
use usp_uri::{Uri, UriFault, check_uri, read_uri};

// Rules 7 to 15, of a token with these claims that the key at this place verifies.
fn judge_claims<'a>(
    terms: &Terms<'_>,
    parts: &Parts<'a>,
    place: usize,
    claims: Claims,
    content: Option<Uri>,
) -> Result<Judged<'a>, NoMemory>
    requires bound { terms.now.moment < MOMENT_BOUND }
    requires claims { CarriesClaims (text_of parts.now) claims }
    requires verified { IsVerified terms.now.profile.now.ring (text_of parts.now) place }
    requires within { place < length terms.now.profile.now.ring }
    ensures { IfOk result (λ judged. JudgesBy constraints terms.now.profile.now
        (record { token = text_of parts.now; content = content; moment = terms.now.moment })
        judged) }
{
    let issuer = terms.profile.ring.keys()[place].issuer();
    if let Some(rule) = first_failing(terms, issuer, &claims, content.as_ref())? {
        return Ok(Judged::Denied(rule));
    }
    let Some(content) = content else {
        return Ok(Judged::Denied(Rule::Container));
    };
    Ok(Judged::Passed {
        content,
        token: TokenRef::of(parts),
        claims,
        key: place,
    })
}

// Rules 4 to 15.
fn judge_parts<'a>(
    terms: &Terms<'_>,
    token: &DecodedToken<'a>,
    content: Option<Uri>,
) -> Result<Judged<'a>, NoMemory>
    requires bound { terms.now.moment < MOMENT_BOUND }
    requires token { IsToken (text_of token.now.parts) }
    ensures { IfOk result (λ judged. JudgesBy rules_of_parts terms.now.profile.now
        (record { token = text_of token.now.parts; content = content; moment = terms.now.moment })
        judged) }
{
    let Some(header) = header_in(terms.alloc, token)? else {
        return Ok(Judged::Denied(Rule::Header));
    };
    let parts = token.parts();
    let Some(place) = verifier(&terms.profile.ring, &header, parts) else {
        return Ok(Judged::Denied(Rule::Signature));
    };
    let Some(claims) = claims_in(terms.alloc, token)? else {
        return Ok(Judged::Denied(Rule::Claims));
    };
    judge_claims(terms, parts, place, claims, content)
}

// Rules 3 to 15.
fn judge_token<'a>(
    terms: &Terms<'_>,
    text: &'a [u8],
    content: Option<Uri>,
) -> Result<Judged<'a>, NoMemory>
    requires bound { terms.now.moment < MOMENT_BOUND }
    ensures { IfOk result (λ judged. JudgesBy rules_of_token terms.now.profile.now
        (record { token = text.now; content = content; moment = terms.now.moment }) judged) }
{
    let Some(token) = decode(terms.alloc, text)? else {
        return Ok(Judged::Denied(Rule::Package));
    };
    judge_parts(terms, &token, content)
}

/// The normal form of a text (RFC 3986 section 6.2). None exactly where it is no URI that has one.
pub fn normal_form(alloc: Global, text: &[u8]) -> Result<Option<Uri>, NoMemory>
    ensures { IfOk result (λ uri. uri ≡ result_ok (normal_of text.now)) }
{
    match read_uri(alloc, text) {
        Ok(uri) => Ok(Some(uri)),
        Err(UriFault::NoMemory) => Err(NoMemory),
        Err(_) => Ok(None),
    }
}

// Whether a text is a URI that has a normal form. It takes no memory.
fn is_uri(text: &[u8]) -> bool
    ensures { IsTrue result ↔ ((normal : List ℕ) × (normal_of text.now ≡ Ok normal)) }
{
    check_uri(text).is_ok()
}

// Rules 1 and 2, of an ask that brings no token.
fn judge_missing(ask: &Ask<'_>) -> Rule
    requires { ask.now.cookie ≡ None }
    ensures { (profile : Profile) → JudgesAll profile ask.now nothing (Denied result) }
{
    if is_uri(ask.uri()) {
        Rule::Missing
    } else {
        Rule::Uri
    }
}

// Rules 1 to 15, of an ask whose URI has no package.
fn judge_cookie<'a>(terms: &Terms<'_>, ask: &Ask<'a>) -> Result<Judged<'a>, NoMemory>
    requires bound { terms.now.moment < MOMENT_BOUND }
    requires moment { terms.now.moment ≡ ask.now.moment }
    ensures { IfOk result (λ judged. JudgesAll terms.now.profile.now ask.now nothing judged) }
{
    let Some(token) = ask.cookie() else {
        return Ok(Judged::Denied(judge_missing(ask)));
    };
    let Some(uri) = normal_form(terms.alloc, ask.uri())? else {
        return Ok(Judged::Denied(Rule::Uri));
    };
    judge_token(terms, token, Some(uri))
}

// Rules 1 to 15, of an ask whose URI has this token between these texts.
fn judge_carried<'a>(
    terms: &Terms<'_>,
    ask: &Ask<'a>,
    token: &'a [u8],
    before: &[u8],
    after: &[u8],
) -> Result<Judged<'a>, NoMemory>
    requires bound { terms.now.moment < MOMENT_BOUND }
    requires moment { terms.now.moment ≡ ask.now.moment }
    ensures { IfOk result (λ judged.
        JudgesAll terms.now.profile.now ask.now (carried token.now before.now after.now) judged) }
{
    if !is_uri(ask.uri()) {
        return Ok(Judged::Denied(Rule::Uri));
    }
    let text = concatenate(terms.alloc, before, after)?;
    let content = normal_form(terms.alloc, &text)?;
    judge_token(terms, token, content)
}

// Rules 1 to 3, of an ask whose URI has a package that does not end as it may.
fn judge_bad(ask: &Ask<'_>) -> Rule
    ensures { (profile : Profile) (at : ℕ) → JudgesAll profile ask.now (bad at) (Denied result) }
{
    if is_uri(ask.uri()) {
        Rule::Package
    } else {
        Rule::Uri
    }
}

/// Denies a request by the first of rules 1 to 15 that it breaks, or tells what passes: the content URI,
/// the token, its claims, and the place in the ring of the key that verifies it.
pub fn judge<'a>(
    alloc: Global,
    kit: &Kit,
    profile: &Profile,
    ask: &Ask<'a>,
) -> Result<Judged<'a>, NoMemory>
    ensures { IfOk result (λ judged. Judges profile.now ask.now judged) }
{
    let terms = Terms {
        alloc,
        kit,
        profile,
        moment: ask.moment(),
    };
    match find(&profile.attribute, ask.uri()) {
        Found::None => judge_cookie(&terms, ask),
        Found::Bad { .. } => Ok(Judged::Denied(judge_bad(ask))),
        Found::At {
            token,
            before,
            after,
        } => judge_carried(&terms, ask, token, before, after),
    }
}
