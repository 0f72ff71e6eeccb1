//! The lines of tokens.
ghost use Rattle.std.specs.Prelude.{◌≡◌, ◌≤◌, List, ℕ, length, IfOk, MatchOption};
ghost use Rattle.usp_claims.specs.declared.limits.TheConstants.{MAX_PAYLOAD};
ghost use Rattle.usp_issue.specs.declared.limits.TheConstants.{MAX_TOKEN};
ghost use Rattle.usp_json.specs.Canon.{canon_members};
ghost use Rattle.usp_jws.specs.Sealed.{sealed};
ghost use Rattle.usp_script.specs.Reading.{Seals};

use super::fields::two_behind;
use super::key::key_named;
use crate::draft::Draft;
use crate::memory::NoMemory;
use std::alloc::Global;
use usp_claims::{Claims, text};
use usp_jws::{Key, Token, seal};
use usp_rules::claims_of;

// The token that the key seals over the canonical text of the claims.
fn seal_claims(alloc: Global, key: &Key, claims: &Claims) -> Result<Token, NoMemory>
    requires { length (canon_members claims.now) ≤ MAX_PAYLOAD }
    ensures text { IfOk result (λ token. token ≡ sealed key.now (canon_members claims.now)) }
    ensures short { IfOk result (λ token. length token ≤ MAX_TOKEN) }
{
    // Say that the key's name is short.
    let _ = key.kid();
    let payload = text(alloc, claims)?;
    Ok(seal(alloc, key, &payload)?)
}

/// What a line `WORD KID CLAIMS` seals. None exactly where it is no such line, or is refused.
pub fn token_in(
    alloc: Global,
    draft: &Draft,
    word: &[u8],
    line: &[u8],
) -> Result<Option<Token>, NoMemory>
    ensures { IfOk result (λ found. MatchOption found
        ((token : List ℕ) → Seals draft.now word.now line.now token → ⊥)
        (λ token. Seals draft.now word.now line.now token × (length token ≤ MAX_TOKEN))) }
{
    let Some((kid, claims)) = two_behind(line, word) else {
        return Ok(None);
    };
    let Some(key) = key_named(draft.keys(), kid) else {
        return Ok(None);
    };
    let Some(claims) = claims_of(alloc, claims)? else {
        return Ok(None);
    };
    Ok(Some(seal_claims(alloc, key, &claims)?))
}
