//! What a token says.
ghost use Rattle.std.specs.Prelude.{◌≡◌, List, ℕ, Option, IfOk, MatchOption};
ghost use Rattle.usp_json.specs.declared.value.Members.{Members};
ghost use Rattle.usp_jws.specs.Headers.{IsHeader};
ghost use Rattle.usp_rules.specs.Tokens.{HasClaims, SpellsClaims};

use crate::NoMemory;
use std::alloc::Global;
use usp_claims::{Claims, read_claims};
use usp_jws::{DecodedToken, Header};

/// The header of a token. None exactly where it is none.
pub fn header_in(alloc: Global, token: &DecodedToken<'_>) -> Result<Option<Header>, NoMemory>
    ensures { IfOk result (λ found. MatchOption found
        ((kid : Option (List ℕ)) → IsHeader token.now.parts.header kid → ⊥)
        (λ header. IsHeader token.now.parts.header header.kid)) }
{
    let fault = match token.read_header(alloc) {
        Ok(header) => return Ok(Some(header)),
        Err(fault) => fault,
    };
    if fault.is_memory() {
        return Err(NoMemory);
    }
    Ok(None)
}

/// The claim set of a payload. None exactly where it is none.
pub fn claims_of(alloc: Global, payload: &[u8]) -> Result<Option<Claims>, NoMemory>
    ensures { IfOk result (λ found. MatchOption found
        ((members : Members) → SpellsClaims payload.now members → ⊥)
        (λ claims. SpellsClaims payload.now claims)) }
{
    let fault = match read_claims(alloc, payload) {
        Ok(claims) => return Ok(Some(claims)),
        Err(fault) => fault,
    };
    if fault.is_memory() {
        return Err(NoMemory);
    }
    Ok(None)
}

/// The claim set of a token. None exactly where it is none.
#[tactic(auto, using(crate::proofs::Readings::claims_by))]
pub fn claims_in(alloc: Global, token: &DecodedToken<'_>) -> Result<Option<Claims>, NoMemory>
    ensures { IfOk result (λ found. MatchOption found
        ((members : Members) → HasClaims token.now.parts.payload members → ⊥)
        (λ claims. HasClaims token.now.parts.payload claims)) }
{
    claims_of(alloc, token.payload())
}
