//! HMAC-SHA-256 (RFC 2104).
ghost use Rattle.std.specs.Prelude.{◌≡◌, ◌++◌, List, ℕ};
ghost use Rattle.sha2.specs.Sha256.{sha256};
ghost use Rattle.sha2.specs.Hashers.{Holds256};
ghost use Rattle.usp_jws.specs.Hmac.{key_block, xored, hmac};

use sha2::{Digest, Sha256};

const BLOCK: usize = 64;

const INNER: u8 = 0x36;

const OUTER: u8 = 0x5c;

// The key as one block.
#[tactic(auto, using(crate::proofs::Blocks::zeros_left), unfolding(crate::specs::Hmac::key_block))]
fn block_of(key: &[u8]) -> [u8; BLOCK]
    ensures { result ≡ key_block key.now }
{
    let mut block = [0u8; BLOCK];
    if key.len() > BLOCK {
        let digest = Sha256::digest(key);
        block[..32].copy_from_slice(&digest);
    } else {
        block[..key.len()].copy_from_slice(key);
    }
    block
}

// Each byte xor the pad.
fn add_pad(block: &mut [u8], pad: u8)
    ensures { block.new ≡ xored pad block.old }
{
    for b in block.iter_mut() {
        *b ^= pad;
    }
}

// A hasher that holds the key's block xor the pad.
fn pad_hasher(key: &[u8], pad: u8) -> Sha256
    ensures { Holds256 result (xored pad (key_block key.now)) }
{
    let mut block = block_of(key);
    add_pad(&mut block, pad);
    let mut hasher = Sha256::new();
    hasher.update(&block);
    hasher
}

/// A hasher that holds the inner pad of a key.
pub(crate) fn inner_of(key: &[u8]) -> Sha256
    ensures { Holds256 result (xored 0x36 (key_block key.now)) }
{
    pad_hasher(key, INNER)
}

/// A hasher that holds the outer pad of a key.
pub(crate) fn outer_of(key: &[u8]) -> Sha256
    ensures { Holds256 result (xored 0x5c (key_block key.now)) }
{
    pad_hasher(key, OUTER)
}

/// The MAC of a text, from hashers that hold the key's two pads.
#[tactic(auto, unfolding(crate::specs::Hmac::hmac))]
pub(crate) fn mac_from(mut inner: Sha256, mut outer: Sha256, text: &[u8]) -> [u8; 32]
    ensures { (key : List ℕ) → Holds256 inner (xored 0x36 (key_block key))
        → Holds256 outer (xored 0x5c (key_block key)) → result ≡ hmac key text.now }
{
    inner.update(text);
    let digest: [u8; 32] = inner.finalize();
    outer.update(&digest);
    outer.finalize()
}

/// The HMAC-SHA-256 of a text (RFC 2104), for keys of every length. A [`Key`](crate::Key) keeps its
/// pads hashed, and is faster where more than one text is signed.
pub fn mac(key: &[u8], text: &[u8]) -> [u8; 32]
    ensures { result ≡ hmac key.now text.now }
{
    mac_from(inner_of(key), outer_of(key), text)
}
