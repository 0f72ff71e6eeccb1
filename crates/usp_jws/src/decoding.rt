//! A token whose header and payload are decoded, each once.
ghost use Rattle.std.specs.Prelude.{◌≡◌, IfOk, IfErr, MatchOption};
ghost use Rattle.base64.specs.GeneralPurpose.{IsBytes};
ghost use Rattle.usp_jws.specs.Base64url.{b64u};
ghost use Rattle.usp_jws.specs.Compact.{IsToken};
ghost use Rattle.usp_jws.specs.Headers.{IsHeader, RefusesHeader};
ghost use Rattle.usp_jws.specs.Parts.{text_of};

use crate::header::header_of;
use crate::parts::{parts_of, pieces_of};
use crate::{Header, HeaderFault, NoMemory, Parts, decode_base64url, is_base64url};
use std::alloc::Global;
use std::marker::Model;

/// A token with the bytes of its header and payload. Only `decode` makes it.
#[derive(Drop)]
pub struct DecodedToken<'a> {
    parts: Parts<'a>,
    header: Vec<u8>,
    payload: Vec<u8>,
}

impl<'a> Model for DecodedToken<'a> {
    ghost use Rattle.usp_jws.specs.Decoding.{DecodedValue, IsDecoded};

    ghost Value = { DecodedValue };

    ghost view = { λ d. record { parts = d.parts; header = d.header.items; payload = d.payload.items } };

    ghost invariant = { λ d. IsDecoded d.parts d.header.items d.payload.items };
}

impl<'a> DecodedToken<'a> {
    /// The parts in base64url.
    pub fn parts(&self) -> &Parts<'a>
        ensures { result.now ≡ self.now.parts }
    {
        &self.parts
    }

    /// The bytes of the payload.
    pub fn payload(&self) -> &[u8]
        ensures value { result.now ≡ self.now.payload }
        ensures bytes { IsBytes self.now.payload }
        ensures encoded { self.now.parts.payload ≡ b64u self.now.payload }
    {
        &self.payload
    }

    /// Reads the header (RFC 7515 section 4.1), as [`read_header`](crate::read_header) does.
    pub fn read_header(&self, alloc: Global) -> Result<Header, HeaderFault>
        ensures read { IfOk result (λ header. IsHeader self.now.parts.header header.kid) }
        ensures refused { IfErr result (λ fault. RefusesHeader fault self.now.parts.header) }
    {
        header_of(alloc, &self.header)
    }
}

/// The token of a text in the compact form (RFC 7515 section 7.1). None exactly where it is none;
/// [`split`](crate::split) tells why.
#[tactic(auto, using(crate::proofs::Tokens::no_token, crate::proofs::Tokens::bad_header, crate::proofs::Tokens::bad_payload, crate::proofs::Tokens::bad_signature))]
pub fn decode(alloc: Global, text: &[u8]) -> Result<Option<DecodedToken<'_>>, NoMemory>
    ensures { IfOk result (λ found. MatchOption found (IsToken text.now → ⊥)
        (λ token. IsToken text.now × (text.now ≡ text_of token.parts))) }
{
    let Ok(pieces) = pieces_of(text) else {
        return Ok(None);
    };
    let Some(header) = decode_base64url(alloc, pieces.header)? else {
        return Ok(None);
    };
    let Some(payload) = decode_base64url(alloc, pieces.payload)? else {
        return Ok(None);
    };
    if !is_base64url(pieces.signature) {
        return Ok(None);
    }
    let parts = parts_of(text, &pieces);
    Ok(Some(DecodedToken {
        parts,
        header,
        payload,
    }))
}
