//! The limits of a configuration, beside those of keys in `usp_jws`, of routes in `usp_issue`, of numbers in
//! `usp_claims`, of the attribute's name in `usp_package` and of nonces in `usp_nonce`.

/// The most issuers that are accepted, and the most identities of an edge. Of this project.
pub const MAX_IDENTITIES: usize = 64;

/// The most extensions. Of this project.
pub const MAX_EXTENSIONS: usize = 32;

/// The most bytes of a route's prefix. Of this project.
pub const MAX_PREFIX: usize = 1_024;
