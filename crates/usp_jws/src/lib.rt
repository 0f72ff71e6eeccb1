//! Tokens in the compact form of JWS (RFC 7515), sealed and verified with HS256 (RFC 7518 section 3.2).
//!
//! ```
//! let key = Key::new(alloc, b"k1", b"cp", &[1; 32])?;
//! let token = seal(alloc, &key, b"{\"exp\":100}")?;
//! let parts = split(token.text())?;
//! let header = read_header(alloc, &parts)?;
//! let mut keys = Vec::new(alloc);
//! keys.push(key)?;
//! assert_eq!(rt; verifier(&Ring::new(keys)?, &header, &parts), Some(0));
//! ```
#![tactic(auto)]

mod base64url;
mod decoding;
mod fault;
mod header;
mod hmac;
mod key;
mod laws;
mod limits;
mod parts;
mod ring;
#[cfg(test)]
mod tests;
mod token;

pub use base64url::{decode_base64url, encode_digest, is_base64url};
pub use decoding::{DecodedToken, decode};
pub use fault::NoMemory;
pub use header::{Header, HeaderFault, read_header};
pub use hmac::mac;
pub use key::{Key, KeyFault, has_identity, is_identity, is_kid};
pub use laws::{
    agrees_by_the_mac, base64url_is_read_back, exactly_one, limits_are_told, named_at_its_place,
    refused_are_no_headers, refused_are_no_tokens, sealed_is_read, sealed_verifies,
    tokens_have_letters,
};
pub use limits::{
    DIGEST_LETTERS, MAX_IDENTITY, MAX_KEYS, MAX_KID, MAX_PAYLOAD, MAX_SECRET, MAX_TOKEN, MIN_SECRET,
};
pub use parts::{Parts, TokenFault, split};
pub use ring::{Ring, RingFault, verifier};
pub use token::{Token, TokenRef, seal};
