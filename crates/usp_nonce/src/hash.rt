//! The hash of a nonce.
ghost use Rattle.std.specs.Prelude.{◌≡◌};
ghost use Rattle.usp_nonce.specs.Hash.{hash_bytes, hash_of};

// The basis and the prime of the hash of Fowler, Noll and Vo with 32 bits.
const BASIS: u32 = 2_166_136_261;

const PRIME: u32 = 16_777_619;

fn hash_bytes(seed: u32, bytes: &[u8]) -> u32
    ensures { result ≡ hash_bytes seed bytes.now }
{
    let mut hash = seed;
    for byte in bytes {
        hash = (hash ^ u32::from(*byte)).wrapping_mul(PRIME);
    }
    hash
}

// The hash of a `jti` with a content URI.
#[tactic(auto, unfolding(crate::specs::Hash::hash_of))]
pub(crate) fn hash_parts(jti: &[u8], uri: &[u8]) -> u32
    ensures { result ≡ hash_of record { jti = jti.now; uri = uri.now } }
{
    hash_bytes(hash_bytes(BASIS, jti), uri)
}
