//! A token over claims.

ghost use Rattle.std.specs.Prelude.{◌≡◌, ◌≤◌, length, true, IfOk};
ghost use Rattle.usp_json.specs.Canon.{canon_members};
ghost use Rattle.usp_jws.specs.Letters.{is_identity};
ghost use Rattle.usp_jws.specs.Sealed.{sealed};
ghost use Rattle.usp_issue.specs.declared.limits.TheConstants.{MAX_CHANGED, MAX_TOKEN};

use crate::NoMemory;
use std::alloc::Global;
use usp_claims::{Claims, text};
use usp_jws::{Key, Token, seal};

// The token that the key seals over the claims.
#[tactic(auto, using(crate::proofs::Fitting::token_short))]
pub(crate) fn seal_claims(alloc: Global, key: &Key, claims: &Claims) -> Result<Token, NoMemory>
    requires { length (canon_members claims.now) ≤ MAX_CHANGED }
    ensures text { IfOk result (λ token. token ≡ sealed key.now (canon_members claims.now)) }
    ensures short { IfOk result (λ token. length token ≤ MAX_TOKEN) }
    ensures issuer { is_identity key.now.issuer ≡ true }
{
    // Say that the key's name is short, and that its issuer is an identity.
    let _ = key.kid();
    let _ = key.issuer();
    let payload = text(alloc, claims)?;
    Ok(seal(alloc, key, &payload)?)
}
