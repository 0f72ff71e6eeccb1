//! The configuration of an edge, a JSON object of rows that are tried in their order.
#![tactic(auto)]

mod claims;
mod conf;
mod fault;
mod keys;
mod laws;
mod limits;
mod lists;
mod member;
mod reading;
mod routes;
#[cfg(test)]
mod tests;
mod texts;

pub use conf::Conf;
pub use fault::ConfFault;
pub use laws::{
    configures_once, configures_what_signing_needs, limits_are_told, refused_are_no_configurations,
};
pub use limits::{MAX_EXTENSIONS, MAX_IDENTITIES, MAX_PREFIX};
pub use member::Member;
pub use reading::read_conf;
pub use usp_nonce::MAX_ROOM;
