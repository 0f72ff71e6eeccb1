//! The nonces that one edge has taken: whether the `jti` of a token was used before for a content
//! (RFC 9246, section 2.1.7).
#![tactic(auto)]

mod answer;
mod cleaning;
mod hash;
mod index;
mod key;
mod laws;
mod limits;
mod row;
mod table;
#[cfg(test)]
mod tests;
mod untils;

pub use answer::{Answer, Turned};
pub use key::{NoMemory, NonceKey, nonce_key};
pub use laws::{has_one_legal_history, takes_no_nonce_twice};
pub use limits::{MAX_CALLS, MAX_ROOM, MAX_UNTIL, MOMENT_LIMIT, limits_are_told};
pub use table::NonceTable;
