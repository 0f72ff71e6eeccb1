//! The key of a nonce.
ghost use Rattle.std.specs.Prelude.{◌≡◌, IfOk};
ghost use Rattle.usp_nonce.specs.Hash.{hash_of};

use crate::hash::hash_parts;
use std::alloc::{AllocError, Global};
use std::error::Error;
use std::fmt;
use std::marker::Model;

/// There is no memory left.
#[derive(Clone, Copy, Debug, PartialEq, Eq)]
pub struct NoMemory;

impl fmt::Display for NoMemory {
    fn fmt<W: fmt::Write>(&self, f: &mut fmt::Formatter<W>) -> fmt::Result {
        write!(
            f,
            "there is no memory left: give the program more, or ask for less room"
        )
    }
}

impl Error for NoMemory {}

impl From<AllocError> for NoMemory {
    fn from(_: AllocError) -> Self {
        NoMemory
    }
}

/// A nonce: a `jti` with the content URI that it is used for.
#[derive(Drop, Debug)]
pub struct NonceKey {
    jti: Vec<u8>,
    uri: Vec<u8>,
    hash: u32,
}

impl Model for NonceKey {
    ghost use Rattle.std.specs.Prelude.{◌≡◌};
    ghost use Rattle.usp_nonce.specs.Hash.{hash_of};
    ghost use Rattle.usp_nonce.specs.Nonces.{Nonce};

    ghost Value = { Nonce };

    ghost view = { λ key. record { jti = key.jti.items; uri = key.uri.items } };

    ghost invariant = { λ key.
        key.hash ≡ hash_of record { jti = key.jti.items; uri = key.uri.items } };
}

/// The nonce of this `jti` (RFC 9246, section 2.1.7) and this content URI.
pub fn nonce_key(alloc: Global, jti: &[u8], uri: &[u8]) -> Result<NonceKey, NoMemory>
    ensures { IfOk result (λ key. key ≡ record { jti = jti.now; uri = uri.now }) }
{
    Ok(NonceKey {
        jti: Vec::from_slice(alloc, jti)?,
        uri: Vec::from_slice(alloc, uri)?,
        hash: hash_parts(jti, uri),
    })
}

impl NonceKey {
    pub fn jti(&self) -> &[u8]
        ensures { result.now ≡ self.now.jti }
    {
        &self.jti
    }

    pub fn uri(&self) -> &[u8]
        ensures { result.now ≡ self.now.uri }
    {
        &self.uri
    }

    pub(crate) fn hash(&self) -> u32
        ensures { result ≡ hash_of self.now }
    {
        self.hash
    }
}
