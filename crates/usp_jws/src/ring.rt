//! The keys that a token may be sealed with.
ghost use Rattle.std.specs.Prelude.{◌≡◌, ◌≤◌, length, None, IfOk, IfErr, position};
ghost use Rattle.std.specs.Option.{option_copied};
ghost use Rattle.usp_jws.specs.Base64url.{b64u};
ghost use Rattle.usp_jws.specs.Hmac.{hmac};
ghost use Rattle.usp_jws.specs.Keys.{names, agrees, has_kid, first_repeat, key_named, place_named};
ghost use Rattle.usp_jws.specs.Parts.{signed_of};
ghost use Rattle.usp_jws.specs.Rings.{RefusesRing};
ghost use Rattle.usp_jws.specs.declared.limits.TheConstants.{DIGEST_LETTERS, MAX_KEYS};

use crate::{DIGEST_LETTERS, Header, Key, MAX_KEYS, Parts, encode_digest};
use std::error::Error;
use std::fmt;
use std::marker::Model;

/// Why keys make no ring. The first that applies is named.
#[derive(Clone, Copy, Debug, PartialEq, Eq)]
pub enum RingFault {
    /// There is no key.
    NoKeys,
    /// There are more than [`MAX_KEYS`] keys.
    ManyKeys,
    /// The key at this place, the first such one, has the name of an earlier key.
    Repeat { place: usize },
}

impl fmt::Display for RingFault {
    fn fmt<W: fmt::Write>(&self, f: &mut fmt::Formatter<W>) -> fmt::Result {
        match self {
            RingFault::NoKeys => write!(f, "there must be a key"),
            RingFault::ManyKeys => write!(f, "there must be at most {MAX_KEYS} keys"),
            RingFault::Repeat { place } => write!(
                f,
                "the key at place {place} must have a name of its own"
            ),
        }
    }
}

impl Error for RingFault {}

/// 1 to [`MAX_KEYS`] keys, no two of one name.
#[derive(Drop)]
pub struct Ring {
    keys: Vec<Key>,
}

impl Model for Ring {
    ghost use Rattle.std.specs.Prelude.{◌≤◌, List, length};
    ghost use Rattle.std.specs.Prelude.{◌≡◌, None};
    ghost use Rattle.usp_jws.specs.Keys.{KeyValue, first_repeat};
    ghost use Rattle.usp_jws.specs.declared.limits.TheConstants.{MAX_KEYS};

    ghost Value = { List KeyValue };

    ghost view = { λ r. r.keys.items };

    ghost invariant = { λ r. (1 ≤ length r.keys.items) × (length r.keys.items ≤ MAX_KEYS)
        × (first_repeat r.keys.items ≡ None) };
}

// Whether one of the keys has that name.
fn has_kid(keys: &[Key], kid: &[u8]) -> bool
    ensures { result ≡ has_kid keys.now kid.now }
{
    keys.iter().any(|key| key.kid() == kid)
}

// The first place whose name an earlier key has.
fn first_repeat(keys: &[Key]) -> Option<usize>
    ensures { result ≡ first_repeat keys.now }
{
    for i in 0..keys.len() {
        if has_kid(&keys[..i], keys[i].kid()) {
            return Some(i);
        }
    }
    None
}

// The MAC of a text in base64url.
fn mac_text(key: &Key, signed: &[u8]) -> [u8; DIGEST_LETTERS]
    ensures { result ≡ b64u (hmac key.now.secret signed.now) }
{
    encode_digest(&key.mac(signed))
}

// Whether the header names no other key.
fn names(kid: Option<&[u8]>, key: &Key) -> bool
    ensures { result ≡ names (option_copied kid.entry) key.now }
{
    match kid {
        None => true,
        Some(kid) => kid == key.kid(),
    }
}

// Whether the key is named, and its MAC over the signed text is the signature.
fn agrees(kid: Option<&[u8]>, signed: &[u8], signature: &[u8], key: &Key) -> bool
    ensures { result ≡ agrees (option_copied kid.entry) signed.now signature.now key.now }
{
    names(kid, key) && mac_text(key, signed).as_slice() == signature
}

// The first place of a key that agrees.
fn first_agreeing(
    keys: &[Key],
    kid: Option<&[u8]>,
    signed: &[u8],
    signature: &[u8],
) -> Option<usize>
    ensures { result ≡
        position (agrees (option_copied kid.entry) signed.now signature.now) keys.now }
{
    keys.iter()
        .position(|key| agrees(kid, signed, signature, key))
}

// The first place of a key of that name, or of any key where there is no name, that agrees.
pub(crate) fn verifier_named(ring: &Ring, kid: Option<&[u8]>, parts: &Parts<'_>) -> Option<usize>
    ensures { result ≡
        position (agrees (option_copied kid.entry) (signed_of parts.now) parts.now.signature) ring.now }
{
    first_agreeing(&ring.keys, kid, parts.signed(), parts.signature())
}

// The name of the key in a header.
fn kid_in(header: &Header) -> Option<&[u8]>
    ensures { option_copied result ≡ header.now.kid }
{
    match &header.kid {
        None => None,
        Some(kid) => Some(kid.text().as_bytes()),
    }
}

/// The place of the first key that the header names, or of any key where it names none, and whose MAC
/// over the first two parts is the signature (RFC 7515 section 5.2). None exactly where there is none. It
/// takes no memory.
pub fn verifier(ring: &Ring, header: &Header, parts: &Parts<'_>) -> Option<usize>
    ensures { result ≡ position (agrees header.now.kid (signed_of parts.now) parts.now.signature) ring.now }
{
    verifier_named(ring, kid_in(header), parts)
}

impl Ring {
    /// Takes the keys, and gives them up where it refuses them. It takes no memory.
    pub fn new(keys: Vec<Key>) -> Result<Ring, RingFault>
        ensures ok { IfOk result (λ ring. ring ≡ keys.items) }
        ensures refused { IfErr result (λ e. RefusesRing e keys.items) }
    {
        if keys.is_empty() {
            return Err(RingFault::NoKeys);
        }
        if keys.len() > MAX_KEYS {
            return Err(RingFault::ManyKeys);
        }
        match first_repeat(&keys) {
            Some(place) => Err(RingFault::Repeat { place }),
            None => Ok(Ring { keys }),
        }
    }

    /// The keys in their order.
    pub fn keys(&self) -> &[Key]
        ensures keys { result.now ≡ self.now }
        ensures count { (1 ≤ length self.now) × (length self.now ≤ MAX_KEYS) }
        ensures apart { first_repeat self.now ≡ None }
    {
        &self.keys
    }

    /// The key of that name. None exactly where there is none.
    pub fn named(&self, kid: &[u8]) -> Option<&Key>
        ensures { option_copied result ≡ key_named self.now kid.now }
    {
        self.keys.iter().find(|key| key.kid() == kid)
    }

    /// The place of the key of that name. None exactly where there is none.
    pub fn place_named(&self, kid: &[u8]) -> Option<usize>
        ensures { result ≡ place_named self.now kid.now }
    {
        self.keys.iter().position(|key| key.kid() == kid)
    }
}
