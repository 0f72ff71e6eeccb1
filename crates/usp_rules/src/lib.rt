//! What a token says of a request: its container, and the rules (RFC 9246 sections 2 and 3).
#![tactic(auto)]

mod ask;
mod chain;
mod constraints;
mod container;
mod critical;
mod fault;
mod hash;
mod judged;
mod laws;
mod limits;
mod profile;
mod rule;
mod segment;
mod terms;
#[cfg(test)]
mod tests;
mod token;

pub use ask::Ask;
pub use chain::{judge, normal_form};
pub use container::Container;
pub use fault::NoMemory;
pub use hash::hash_container;
pub use judged::Judged;
pub use laws::{
    admits_what_passes, limits_are_told, names_the_first_that_fails, one_verdict,
    others_are_no_rules_of_tokens, passes_what_is_valid, segments_are_ascii,
};
pub use limits::SEGMENT_LEN;
pub use profile::Profile;
pub use rule::Rule;
pub use segment::segment_of;
pub use token::claims_of;
