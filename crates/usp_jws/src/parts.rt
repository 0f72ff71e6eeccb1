//! A token's three parts (RFC 7515 section 7.1).
ghost use Rattle.std.specs.Prelude.{◌≡◌, ◌∷◌, ◌++◌, ◌≤◌, length, IfOk, IfErr, MatchOption, position, ◌==◌};
ghost use Rattle.usp_jws.specs.Base64url.{IsB64u};
ghost use Rattle.usp_jws.specs.Compact.{Refuses, IsCut, IsToken, dots};
ghost use Rattle.usp_jws.specs.Dotted.{dot};
ghost use Rattle.usp_jws.specs.Parts.{signed_of, text_of};

use crate::{MAX_TOKEN, is_base64url};
use std::error::Error;
use std::fmt;
use std::marker::Model;

/// Why a text is no token. The first that applies is named.
#[derive(Clone, Copy, Debug, PartialEq, Eq)]
pub enum TokenFault {
    /// The text has more than [`MAX_TOKEN`] bytes.
    TooLong,
    /// The text has not exactly two dots.
    NotThree,
    /// The part, from 1 to 3 and the first such one, is not base64url without padding.
    NotB64 { part: u8 },
}

impl fmt::Display for TokenFault {
    fn fmt<W: fmt::Write>(&self, f: &mut fmt::Formatter<W>) -> fmt::Result {
        match self {
            TokenFault::TooLong => write!(f, "the token must have at most {MAX_TOKEN} bytes"),
            TokenFault::NotThree => write!(
                f,
                "the token must have three parts, with a dot between them"
            ),
            TokenFault::NotB64 { part } => write!(
                f,
                "part {part} of the token must be base64url without padding"
            ),
        }
    }
}

impl Error for TokenFault {}

/// The parts of a token. Each is base64url, and may be empty. Only `split` makes them.
#[derive(Drop)]
pub struct Parts<'a> {
    text: &'a [u8],
    header: &'a [u8],
    payload: &'a [u8],
    signature: &'a [u8],
    signed: &'a [u8],
}

impl<'a> Model for Parts<'a> {
    ghost use Rattle.usp_jws.specs.Parts.{PartsValue, IsSplit};

    ghost Value = { PartsValue };

    ghost view = { λ p. record { header = p.header.now; payload = p.payload.now; signature = p.signature.now } };

    ghost invariant = { λ p. IsSplit p.text.now p.header.now p.payload.now p.signature.now p.signed.now };
}

impl<'a> Parts<'a> {
    /// The header in base64url.
    pub fn header(&self) -> &'a [u8]
        ensures value { result.now ≡ self.now.header }
        ensures encoded { IsB64u result.now }
    {
        self.header
    }

    /// The payload in base64url.
    pub fn payload(&self) -> &'a [u8]
        ensures { result.now ≡ self.now.payload }
    {
        self.payload
    }

    /// The signature in base64url.
    pub fn signature(&self) -> &'a [u8]
        ensures { result.now ≡ self.now.signature }
    {
        self.signature
    }

    /// The first two parts with their dot.
    pub fn signed(&self) -> &'a [u8]
        ensures { result.now ≡ signed_of self.now }
    {
        self.signed
    }

    /// The text that was split.
    pub fn text(&self) -> &'a [u8]
        ensures text { result.now ≡ text_of self.now }
        ensures token { IsToken result.now }
    {
        self.text
    }
}

// The three parts of a text, of which nothing is known but that they have the text's only two dots between them.
#[derive(Drop)]
pub(crate) struct Pieces<'a> {
    pub(crate) header: &'a [u8],
    pub(crate) payload: &'a [u8],
    pub(crate) signature: &'a [u8],
}

// Where the first dot is.
fn first_dot(text: &[u8]) -> Option<usize>
    ensures { result ≡ position (λ b. b == dot) text.now }
{
    text.iter().position(|b| *b == b'.')
}

// What stands before the first dot and behind it, where there is one.
fn cut_at_dot(text: &[u8]) -> Option<(&[u8], &[u8])>
    ensures { MatchOption result (dots text.now ≡ 0)
        (λ cut. (text.now ≡ cut.0.now ++ dot ∷ cut.1.now) × (dots cut.0.now ≡ 0)) }
{
    let at = first_dot(text)?;
    Some((&text[..at], &text[at + 1..]))
}

// The three parts of a text that has two dots and is short enough.
pub(crate) fn pieces_of(text: &[u8]) -> Result<Pieces<'_>, TokenFault>
    ensures ok { IfOk result (λ p. IsCut text.now p.header.now p.payload.now p.signature.now) }
    ensures refused { IfErr result (λ e. Refuses e text.now) }
{
    if text.len() > MAX_TOKEN {
        return Err(TokenFault::TooLong);
    }
    let Some((header, rest)) = cut_at_dot(text) else {
        return Err(TokenFault::NotThree);
    };
    let Some((payload, signature)) = cut_at_dot(rest) else {
        return Err(TokenFault::NotThree);
    };
    if cut_at_dot(signature).is_some() {
        return Err(TokenFault::NotThree);
    }
    Ok(Pieces {
        header,
        payload,
        signature,
    })
}

// The parts of a text that are base64url.
pub(crate) fn parts_of<'a>(text: &'a [u8], pieces: &Pieces<'a>) -> Parts<'a>
    requires cut { IsCut text.now pieces.now.header.now pieces.now.payload.now pieces.now.signature.now }
    requires header { IsB64u pieces.now.header.now }
    requires payload { IsB64u pieces.now.payload.now }
    requires signature { IsB64u pieces.now.signature.now }
    ensures text { text.now ≡ text_of result }
    ensures header { result.header ≡ pieces.now.header.now }
    ensures payload { result.payload ≡ pieces.now.payload.now }
{
    let signed = &text[..pieces.header.len() + 1 + pieces.payload.len()];
    Parts {
        text,
        header: pieces.header,
        payload: pieces.payload,
        signature: pieces.signature,
        signed,
    }
}

/// The three parts of a token in the compact form (RFC 7515 section 7.1). It takes no memory. That
/// a text is accepted exactly where it is a token is the law [`refused_are_no_tokens`](crate::refused_are_no_tokens).
pub fn split(text: &[u8]) -> Result<Parts<'_>, TokenFault>
    ensures ok { IfOk result (λ parts. IsToken text.now × (text.now ≡ text_of parts)) }
    ensures refused { IfErr result (λ e. Refuses e text.now) }
{
    let pieces = pieces_of(text)?;
    if !is_base64url(pieces.header) {
        return Err(TokenFault::NotB64 { part: 1 });
    }
    if !is_base64url(pieces.payload) {
        return Err(TokenFault::NotB64 { part: 2 });
    }
    if !is_base64url(pieces.signature) {
        return Err(TokenFault::NotB64 { part: 3 });
    }
    Ok(parts_of(text, &pieces))
}
