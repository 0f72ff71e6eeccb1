//! The claim sets of signed URIs (RFC 9246 section 2.1).
//!
//! ```rust
//! let claims = read_claims(alloc, b"{ \"cdniuc\" : \"regex:.*\", \"exp\" : 1500 }")?;
//! assert_eq!(rt; claims.exp(), Some(1500));
//! assert_eq!(rt; claims.uc(), b"regex:.*".as_slice());
//! assert_eq!(rt; text(alloc, &claims)?.as_slice(), b"{\"cdniuc\":\"regex:.*\",\"exp\":1500}".as_slice());
//! ```
#![tactic(auto)]

mod changes;
mod claims;
mod fault;
mod laws;
mod limits;
mod table;
#[cfg(test)]
mod tests;
mod values;

pub use claims::{Claims, read_claims, text};
pub use fault::{ClaimFault, NoMemory};
pub use laws::{
    bounds_the_values, changes_one_claim, counts_the_members, limits_are_told,
    refused_are_no_claim_sets, stays_a_claim_set,
};
pub use limits::{MAX_CANONICAL, MAX_NUMBER, MAX_PAYLOAD, MAX_PERIOD};
pub use table::{ClaimKind, ClaimName, ROWS, Row};
pub use values::whole_in;
