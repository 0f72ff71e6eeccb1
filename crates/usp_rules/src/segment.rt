//! The segment form of a hash name.
ghost use Rattle.std.specs.Prelude.{◌≡◌};
ghost use Rattle.usp_rules.specs.Segment.{segment_of};

use crate::SEGMENT_LEN;
use sha2::{Digest, Sha256};
use usp_jws::encode_digest;

/// The segment form of a text's hash name (RFC 6920 section 5): `sha-256;` and its digest.
#[tactic(auto, unfolding(crate::specs::Segment::segment_of))]
pub fn segment_of(text: &[u8]) -> [u8; SEGMENT_LEN]
    ensures { result ≡ segment_of text.now }
{
    let digest: [u8; 32] = Sha256::digest(text);
    let mut segment = [0u8; SEGMENT_LEN];
    segment[..8].copy_from_slice(b"sha-256;");
    segment[8..].copy_from_slice(&encode_digest(&digest));
    segment
}
