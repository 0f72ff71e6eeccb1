//! Keys, and the names that they have.
ghost use Rattle.std.specs.Prelude.{◌≡◌, ◌↔◌, ◌≤◌, length, true, IsTrue, IfOk, IfErr};
ghost use Rattle.usp_jws.specs.Letters.{has_identity, is_kid_letter, is_identity_byte, is_kid, is_identity};
ghost use Rattle.std.specs.List.{list_all};
ghost use Rattle.usp_jws.specs.Hmac.{hmac, IsDigest};
ghost use Rattle.usp_jws.specs.KeyFaults.{RefusesKey};
ghost use Rattle.usp_jws.specs.declared.key.KeyFault.TheVariants.{NoMemory as IsMemory};
ghost use Rattle.usp_jws.specs.declared.limits.TheConstants.{MAX_KID, MAX_SECRET, MIN_SECRET};

use crate::hmac::{inner_of, mac_from, outer_of};
use crate::{MAX_IDENTITY, MAX_KID, MAX_SECRET, MIN_SECRET};
use sha2::Sha256;
use std::alloc::{AllocError, Global};
use std::error::Error;
use std::fmt;
use std::marker::Model;
use usp_json::Text;

/// Why there is no such key. The first that applies is named.
#[derive(Clone, Copy, Debug, PartialEq, Eq)]
pub enum KeyFault {
    /// The name is not 1 to [`MAX_KID`] letters, digits, `-`, `.` and `_`.
    BadKid,
    /// The issuer is not 1 to [`MAX_IDENTITY`] printable ASCII characters without space, `"` and `\`.
    BadIssuer,
    /// The secret has fewer than [`MIN_SECRET`] bytes (RFC 7518 section 3.2).
    ShortKey,
    /// The secret has more than [`MAX_SECRET`] bytes.
    LongKey,
    /// There was no memory.
    NoMemory,
}

impl KeyFault {
    /// Whether it is want of memory.
    pub fn is_memory(self) -> bool
        ensures { IsTrue result ↔ self ≡ IsMemory }
    {
        matches!(self, KeyFault::NoMemory)
    }
}

impl fmt::Display for KeyFault {
    fn fmt<W: fmt::Write>(&self, f: &mut fmt::Formatter<W>) -> fmt::Result {
        match self {
            KeyFault::BadKid => write!(
                f,
                "the name must be 1 to {MAX_KID} letters, digits, `-`, `.` and `_`"
            ),
            KeyFault::BadIssuer => write!(
                f,
                "the issuer must be 1 to {MAX_IDENTITY} printable ASCII characters without space, `\"` and `\\`"
            ),
            KeyFault::ShortKey => write!(f, "the secret must have at least {MIN_SECRET} bytes"),
            KeyFault::LongKey => write!(f, "the secret must have at most {MAX_SECRET} bytes"),
            KeyFault::NoMemory => write!(f, "there was no memory"),
        }
    }
}

impl Error for KeyFault {}

impl From<AllocError> for KeyFault {
    ghost from_gives = { λ _ e. e ≡ IsMemory };

    fn from(_: AllocError) -> Self {
        KeyFault::NoMemory
    }
}

/// An HS256 key with its name and its issuer. It keeps the hashers of its two pads, so that a MAC
/// hashes no pad again.
#[derive(Drop)]
pub struct Key {
    kid: Vec<u8>,
    issuer: Vec<u8>,
    secret: Vec<u8>,
    inner: Sha256,
    outer: Sha256,
}

impl Model for Key {
    ghost use Rattle.usp_jws.specs.Keys.{KeyValue, IsKey};

    ghost Value = { KeyValue };

    ghost view = { λ k. record { kid = k.kid.items; issuer = k.issuer.items; secret = k.secret.items } };

    ghost invariant = { λ k. IsKey k.kid.items k.issuer.items k.secret.items k.inner k.outer };
}

impl Key {
    /// Takes copies of the name, the issuer and the secret.
    pub fn new(alloc: Global, kid: &[u8], issuer: &[u8], secret: &[u8]) -> Result<Key, KeyFault>
        ensures ok { IfOk result (λ k.
            (k.kid ≡ kid.now) × (k.issuer ≡ issuer.now) × (k.secret ≡ secret.now)) }
        ensures limits { IfOk result (λ k. (is_kid kid.now ≡ true) × (is_identity issuer.now ≡ true)
            × (MIN_SECRET ≤ length secret.now) × (length secret.now ≤ MAX_SECRET)) }
        ensures refused { IfErr result (λ e. RefusesKey e kid.now issuer.now secret.now) }
    {
        if !is_kid(kid) {
            return Err(KeyFault::BadKid);
        }
        if !is_identity(issuer) {
            return Err(KeyFault::BadIssuer);
        }
        if secret.len() < MIN_SECRET {
            return Err(KeyFault::ShortKey);
        }
        if secret.len() > MAX_SECRET {
            return Err(KeyFault::LongKey);
        }
        let kid = kid.to_vec(alloc)?;
        let issuer = issuer.to_vec(alloc)?;
        let secret = secret.to_vec(alloc)?;
        let inner = inner_of(&secret);
        let outer = outer_of(&secret);
        Ok(Key {
            kid,
            issuer,
            secret,
            inner,
            outer,
        })
    }

    /// The name of the key, the `kid` of a header (RFC 7515 section 4.1.4).
    pub fn kid(&self) -> &[u8]
        ensures value { result.now ≡ self.now.kid }
        ensures named { is_kid self.now.kid ≡ true }
        ensures short { length result.now ≤ MAX_KID }
    {
        &self.kid
    }

    /// Who signs with the key, the `iss` of a claim set (RFC 7519 section 4.1.1).
    pub fn issuer(&self) -> &[u8]
        ensures value { result.now ≡ self.now.issuer }
        ensures identity { is_identity self.now.issuer ≡ true }
    {
        &self.issuer
    }

    /// The name of the key as a text.
    #[tactic(auto, using(crate::proofs::Ascii::kid_text))]
    pub fn kid_text(&self) -> &str
        ensures { result.now ≡ self.now.kid }
    {
        unsafe { str::from_utf8_unchecked(&self.kid) }
    }

    /// Who signs with the key, as a text.
    #[tactic(auto, using(crate::proofs::Ascii::identity_text))]
    pub fn issuer_text(&self) -> &str
        ensures { result.now ≡ self.now.issuer }
    {
        unsafe { str::from_utf8_unchecked(&self.issuer) }
    }

    /// The MAC of a text by this key.
    pub fn mac(&self, text: &[u8]) -> [u8; 32]
        ensures value { result ≡ hmac self.now.secret text.now }
        ensures digest { IsDigest (hmac self.now.secret text.now) }
    {
        let inner = self.inner.clone().unwrap();
        let outer = self.outer.clone().unwrap();
        mac_from(inner, outer, text)
    }
}

/// Whether a text is the name of a key: 1 to [`MAX_KID`] letters, digits, `-`, `.` and `_`.
pub fn is_kid(kid: &[u8]) -> bool
    ensures { result ≡ is_kid kid.now }
{
    1 <= kid.len() && kid.len() <= MAX_KID && has_kid_letters(kid)
}

/// Whether a text names an issuer or an edge: 1 to [`MAX_IDENTITY`] printable ASCII characters without
/// space, `"` and `\`.
pub fn is_identity(text: &[u8]) -> bool
    ensures { result ≡ is_identity text.now }
{
    1 <= text.len() && text.len() <= MAX_IDENTITY && has_identity_bytes(text)
}

/// Whether the identity is one of those.
pub fn has_identity(identities: &[Text], identity: &[u8]) -> bool
    ensures { result ≡ has_identity identities.now identity.now }
{
    identities
        .iter()
        .any(|known| known.text().as_bytes() == identity)
}

fn has_kid_letters(kid: &[u8]) -> bool
    ensures { result ≡ list_all is_kid_letter kid.now }
{
    kid.iter().all(|b| is_kid_letter(*b))
}

fn has_identity_bytes(text: &[u8]) -> bool
    ensures { result ≡ list_all is_identity_byte text.now }
{
    text.iter().all(|b| is_identity_byte(*b))
}

fn is_kid_letter(b: u8) -> bool
    ensures { result ≡ is_kid_letter b }
{
    b.is_ascii_alphanumeric() || b == b'-' || b == b'.' || b == b'_'
}

fn is_identity_byte(b: u8) -> bool
    ensures { result ≡ is_identity_byte b }
{
    b.is_ascii_graphic() && b != b'"' && b != b'\\'
}
