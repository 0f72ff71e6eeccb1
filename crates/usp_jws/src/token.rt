//! A token's text, and sealing.
ghost use Rattle.std.specs.Prelude.{◌≡◌, ◌≤◌, ◌<◌, ◌+◌, ◌∷◌, ◌++◌, length, true, IfOk, OnOk, string_bytes};
ghost use Rattle.std.specs.List.{list_all};
ghost use Rattle.base64.specs.GeneralPurpose.{IsBytes};
ghost use Rattle.usp_jws.specs.Base64url.{b64u};
ghost use Rattle.usp_jws.specs.Compact.{IsToken, compact};
ghost use Rattle.usp_jws.specs.Dotted.{dot};
ghost use Rattle.usp_jws.specs.Hmac.{hmac, IsDigest};
ghost use Rattle.usp_jws.specs.Letters.{is_token_letter};
ghost use Rattle.usp_jws.specs.Parts.{text_of};
ghost use Rattle.usp_jws.specs.Sealed.{header_text, sealed, sealed_len};
ghost use Rattle.usp_jws.specs.declared.limits.TheConstants.{MAX_PAYLOAD};

use crate::{Key, NoMemory, Parts};
use base64::engine::general_purpose::URL_SAFE_NO_PAD;
use std::alloc::Global;
use std::marker::Model;

/// A text that `split` accepts.
#[derive(Drop)]
pub struct Token {
    text: Vec<u8>,
}

impl Model for Token {
    ghost use Rattle.std.specs.Prelude.{List, ℕ};
    ghost use Rattle.usp_jws.specs.Compact.{IsToken};

    ghost Value = { List ℕ };

    ghost view = { λ t. t.text.items };

    ghost invariant = { λ t. IsToken t.text.items };
}

impl Token {
    /// The token that was split.
    pub fn of(alloc: Global, parts: &Parts<'_>) -> Result<Token, NoMemory>
        ensures { IfOk result (λ token. token ≡ text_of parts.now) }
    {
        let text = parts.text();
        Ok(Token {
            text: text.to_vec(alloc)?,
        })
    }

    /// The token's text.
    #[tactic(auto, using(crate::proofs::TokenLetters::token_some, crate::proofs::TokenLetters::token_letters))]
    pub fn text(&self) -> &[u8]
        ensures text { result.now ≡ self.now }
        ensures token { IsToken self.now }
        ensures some { 0 < length self.now }
        ensures letters { list_all is_token_letter self.now ≡ true }
    {
        &self.text
    }
}

/// A token that stands in a text of somebody else's, which nothing was copied from.
#[derive(Drop)]
pub struct TokenRef<'a> {
    text: &'a [u8],
}

impl<'a> Model for TokenRef<'a> {
    ghost use Rattle.std.specs.Prelude.{List, ℕ};
    ghost use Rattle.usp_jws.specs.Compact.{IsToken};

    ghost Value = { List ℕ };

    ghost view = { λ t. t.text.now };

    ghost invariant = { λ t. IsToken t.text.now };
}

impl<'a> TokenRef<'a> {
    /// The token that was split.
    pub fn of(parts: &Parts<'a>) -> TokenRef<'a>
        ensures { result ≡ text_of parts.now }
    {
        TokenRef { text: parts.text() }
    }

    /// The token's text.
    #[tactic(auto, using(crate::proofs::TokenLetters::token_some, crate::proofs::TokenLetters::token_letters))]
    pub fn text(&self) -> &'a [u8]
        ensures text { result.now ≡ self.now }
        ensures token { IsToken self.now }
        ensures some { 0 < length self.now }
        ensures letters { list_all is_token_letter self.now ≡ true }
    {
        self.text
    }

    /// A copy that keeps its own text.
    pub fn to_token(&self, alloc: Global) -> Result<Token, NoMemory>
        ensures { IfOk result (λ token. token ≡ self.now) }
    {
        Ok(Token {
            text: self.text.to_vec(alloc)?,
        })
    }
}

// The header's text for a key's name.
fn header_of(alloc: Global, kid: &[u8]) -> Result<Vec<u8>, NoMemory>
    ensures text { IfOk result (λ text. text.items ≡ header_text kid.now) }
    ensures length { IfOk result (λ text. length text.items ≡ length kid.now + 24) }
{
    let mut text = Vec::new(alloc);
    text.extend_from_slice(b"{\"alg\":\"HS256\",\"kid\":\"")?;
    text.extend_from_slice(kid)?;
    text.extend_from_slice(b"\"}")?;
    Ok(text)
}

// Adds bytes in base64url.
#[tactic(auto, unfolding(crate::specs::Base64url::b64u))]
fn push_base64url(text: &mut String, bytes: &[u8]) -> Result<(), NoMemory>
    ensures { OnOk result (string_bytes text.new ≡ string_bytes text.old ++ b64u bytes.now) }
{
    URL_SAFE_NO_PAD.encode_string(bytes, text)?;
    Ok(())
}

// The first two parts with their dot.
fn signed_of(alloc: Global, header: &[u8], payload: &[u8]) -> Result<String, NoMemory>
    ensures { IfOk result (λ text. string_bytes text ≡ b64u header.now ++ dot ∷ b64u payload.now) }
{
    let mut text = String::new(alloc);
    push_base64url(&mut text, header)?;
    text.push('.')?;
    push_base64url(&mut text, payload)?;
    Ok(text)
}

// The compact form of a header, a payload and the key's MAC of the two.
fn compact_of(alloc: Global, header: &[u8], payload: &[u8], key: &Key) -> Result<Vec<u8>, NoMemory>
    ensures text { IfOk result (λ text. text.items ≡ compact header.now payload.now
        (hmac key.now.secret (b64u header.now ++ dot ∷ b64u payload.now))) }
    ensures header { IsBytes header.now }
    ensures digest { OnOk result (IsDigest (hmac key.now.secret (b64u header.now ++ dot ∷ b64u payload.now))) }
{
    let mut text = signed_of(alloc, header, payload)?;
    let digest = key.mac(text.as_bytes());
    text.push('.')?;
    push_base64url(&mut text, &digest)?;
    Ok(text.into_bytes())
}

/// The token that the key seals over a payload (RFC 7515 section 5.1), with the header
/// `{"alg":"HS256","kid":"K"}`. It is accepted by `split`, and verified by each ring that has the key
/// (the law [`sealed_verifies`](crate::sealed_verifies)).
#[tactic(auto, unfolding(crate::specs::Sealed::sealed))]
pub fn seal(alloc: Global, key: &Key, payload: &[u8]) -> Result<Token, NoMemory>
    requires { length payload.now ≤ MAX_PAYLOAD }
    ensures text { IfOk result (λ token. token ≡ sealed key.now payload.now) }
    ensures length { IfOk result (λ token. length token ≡ sealed_len (length key.now.kid) (length payload.now)) }
{
    let header = header_of(alloc, key.kid())?;
    let text = compact_of(alloc, &header, payload, key)?;
    Ok(Token { text })
}
