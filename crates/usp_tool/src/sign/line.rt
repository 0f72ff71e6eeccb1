//! A line of `sign`.
ghost use Rattle.std.specs.Prelude.{◌≡◌, ◌↔◌, ◌<◌, ◌≤◌, List, ℕ, IfOk, IsTrue, MatchOption, length};
ghost use Rattle.usp_claims.specs.Table.{IsClaimSet};
ghost use Rattle.usp_claims.specs.declared.limits.TheConstants.{MAX_PAYLOAD};
ghost use Rattle.usp_jws.specs.Sealed.{sealed};
ghost use Rattle.usp_uri.specs.declared.limits.TheConstants.{MAX_LEN};
ghost use Rattle.usp_json.specs.Canon.{canon_members};
ghost use Rattle.usp_package.specs.Package.{nothing, package_of};
ghost use Rattle.usp_tool.specs.Sign.Line.{SignsLine, claims_for, is_open, payload_for, signed_uri};

use crate::memory::NoMemory;
use std::alloc::Global;
use usp_base::cut_at;
use usp_claims::{ClaimName, Claims, text};
use usp_json::Json;
use usp_jws::{Key, Token, seal};
use usp_package::{AttrName, Found, embed, find};
use usp_rules::{claims_of, hash_container, normal_form};
use usp_uri::{MAX_LEN, Uri};

// Whether the URI has no package.
fn is_bare(attribute: &AttrName, uri: &Uri) -> bool
    ensures { IsTrue result ↔ package_of attribute.now uri.now ≡ nothing }
{
    match find(attribute, uri.text()) {
        Found::None => true,
        Found::Bad { .. } => false,
        Found::At { .. } => false,
    }
}

fn is_open(claims: &Claims) -> bool
    ensures { result ≡ is_open claims.now }
{
    claims.uc() == b"hash:".as_slice()
}

// The claims that are sealed for a URI.
#[tactic(auto, using(crate::proofs::Signing::Line::container_set, crate::proofs::Signing::Line::container_short))]
fn claims_for(alloc: Global, uri: &Uri, claims: Claims) -> Result<Claims, NoMemory>
    requires set { IsClaimSet claims }
    requires short { length (canon_members claims) ≤ MAX_PAYLOAD }
    ensures { IfOk result (λ sealed. sealed ≡ claims_for uri.now claims) }
{
    if !is_open(&claims) {
        return Ok(claims);
    }
    let container = hash_container(alloc, uri)?;
    Ok(claims.with(alloc, ClaimName::Uc, Json::Str(container))?)
}

// The token over the claims for a URI.
fn token_for(alloc: Global, key: &Key, uri: &Uri, claims: Claims) -> Result<Token, NoMemory>
    requires set { IsClaimSet claims }
    requires short { length (canon_members claims) ≤ MAX_PAYLOAD }
    ensures { IfOk result (λ token. token ≡ sealed key.now (payload_for uri.now claims)) }
{
    let claims = claims_for(alloc, uri, claims)?;
    let payload = text(alloc, &claims)?;
    Ok(seal(alloc, key, &payload)?)
}

// What is signed for a URI. None exactly where it would be too long.
fn sign_uri(
    alloc: Global,
    attribute: &AttrName,
    key: &Key,
    uri: &Uri,
    claims: Claims,
) -> Result<Option<Vec<u8>>, NoMemory>
    requires bare { package_of attribute.now uri.now ≡ nothing }
    requires set { IsClaimSet claims }
    requires short { length (canon_members claims) ≤ MAX_PAYLOAD }
    ensures { IfOk result (λ signed. MatchOption signed
        (MAX_LEN < length (signed_uri attribute.now key.now uri.now claims))
        (λ text. (text.items ≡ signed_uri attribute.now key.now uri.now claims)
        × (length text.items ≤ MAX_LEN))) }
{
    let token = token_for(alloc, key, uri, claims)?;
    let text = embed(alloc, attribute, uri, token.text())?;
    if text.len() > MAX_LEN {
        return Ok(None);
    }
    Ok(Some(text))
}

/// What is signed for a line. None exactly where nothing is.
pub fn sign_line(
    alloc: Global,
    attribute: &AttrName,
    key: &Key,
    line: &[u8],
) -> Result<Option<Vec<u8>>, NoMemory>
    ensures { IfOk result (λ signed. MatchOption signed
        ((text : List ℕ) → SignsLine attribute.now key.now line.now text → ⊥)
        (λ text. SignsLine attribute.now key.now line.now text.items)) }
{
    let Some((typed, claims)) = cut_at(line, b' ') else {
        return Ok(None);
    };
    let Some(uri) = normal_form(alloc, typed)? else {
        return Ok(None);
    };
    if !is_bare(attribute, &uri) {
        return Ok(None);
    }
    let Some(claims) = claims_of(alloc, claims)? else {
        return Ok(None);
    };
    sign_uri(alloc, attribute, key, &uri, claims)
}
