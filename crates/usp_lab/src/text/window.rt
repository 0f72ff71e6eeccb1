//! From when and until when tokens hold.
ghost use Rattle.std.specs.Prelude.{IfOk};
ghost use Rattle.usp_lab.specs.Links.{IsWindow};

use crate::NoMemory;
use std::alloc::Global;
use usp_jws::decode;
use usp_rules::claims_of;

/// From when and until when a token holds, by its claims `nbf` and `exp` (RFC 7519 sections 4.1.5 and 4.1.4), in
/// seconds since 1970.
#[derive(Clone, Copy)]
pub struct Window {
    pub from: Option<u64>,
    pub until: Option<u64>,
}

// A text that is no token with claims has no bounds.
const UNBOUNDED: Window = Window {
    from: None,
    until: None,
};

/// The window of a token.
#[tactic(auto, using(crate::proofs::Windows::no_token, crate::proofs::Windows::no_claims, crate::proofs::Windows::window_of_claims))]
pub fn window_of(alloc: Global, token: &[u8]) -> Result<Window, NoMemory>
    ensures { IfOk result (λ window. IsWindow token.now window) }
{
    let Some(decoded) = decode(alloc, token)? else {
        return Ok(UNBOUNDED);
    };
    let Some(claims) = claims_of(alloc, decoded.payload())? else {
        return Ok(UNBOUNDED);
    };
    Ok(Window {
        from: claims.nbf(),
        until: claims.exp(),
    })
}
