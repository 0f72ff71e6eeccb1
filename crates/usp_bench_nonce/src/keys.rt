//! The keys of nonces.

use std::alloc::Global;
use usp_nonce::{NoMemory, NonceKey, nonce_key};

/// A content URI of 72 bytes.
const URI: &[u8] = b"https://video.example.com/folder/quality_sd/segment-001.mp4?session=4711";

/// Sixteen pieces of six letters, and sixteen others: either piece of a row leads to the same hash.
const ONE: &[u8] =
    b"m0oe1lkh1fii4jai4ckb9qxiisw090l13j901aahanjn5s73uv0o5m3tgb78beds3f071qboc0lsclvhvjgbvbn5gjalnhr5";

const OTHER: &[u8] =
    b"5aum35fklzzkd2xy8l9jav4dq8h15gn4w7shsgd7pe2uwx6jdfrm5vx092j0w1dfevs8pat48vavfbck7w5zty6rbgv52h2q";

const PIECE: usize = 6;

const LETTERS: usize = 16 * PIECE;

/// A key whose `jti` has 16 bytes, and is that of no other number.
pub fn key_of(alloc: Global, number: u64) -> Result<NonceKey, NoMemory> {
    let mut jti = *b"0000000000000000";
    let mut rest = number;
    for letter in jti.iter_mut() {
        *letter = b'a' + (rest % 16) as u8;
        rest = rest / 16;
    }
    nonce_key(alloc, &jti, URI)
}

/// A key whose hash is that of each other number. No two numbers below 65,536 have the same key.
pub fn key_of_one_hash(alloc: Global, number: u64) -> Result<NonceKey, NoMemory> {
    let mut jti = [0u8; LETTERS];
    for (at, letter) in jti.iter_mut().enumerate() {
        let piece = (at / PIECE) as u32;
        let pieces = if number.wrapping_shr(piece) % 2 == 0 {
            ONE
        } else {
            OTHER
        };
        *letter = pieces.get(at).copied().unwrap_or(b'0');
    }
    nonce_key(alloc, &jti, URI)
}
