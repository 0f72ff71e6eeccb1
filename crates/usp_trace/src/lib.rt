//! What was issued, and the trace of each use of a token to the grant that it comes from (RFC 9246 section 3).
//!
//! ```
//! let mut ledger = Ledger::empty(alloc);
//! ledger.append(Issue::Grant { token })?; // place 0
//! // An edge asks for the place of the token that it was shown, and appends what it issued for it.
//! let Some(parent) = ledger.first_place(shown) else { return Ok(()) };
//! ledger.append(Issue::Renewed { parent, edge: 0, uri, moment: 1010, token: renewed })?; // place 1
//! assert_eq!(rt; ledger.chain(alloc, 1)?.as_slice(), [0, 1].as_slice());
//! ```
#![tactic(auto)]

mod fault;
mod first_places;
mod issue;
mod issue_list;
mod laws;
mod ledger;
mod limits;
#[cfg(test)]
mod tests;

pub use fault::NoMemory;
pub use issue::Issue;
pub use laws::{
    finds_the_least_place, follows_the_links, hands_on_the_grant, has_one_chain, has_one_origin,
    meets_its_grant, names_each_link, says_what_is_met, says_what_is_sound, stays_met, stays_sound,
};
pub use ledger::Ledger;
pub use limits::{MAX_ISSUES, limits_are_told};
