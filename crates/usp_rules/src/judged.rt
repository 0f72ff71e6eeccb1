//! What is found of a request.
use crate::Rule;
use usp_claims::Claims;
use usp_jws::TokenRef;
use usp_uri::Uri;

/// Whether a request passes rules 1 to 15.
#[derive(Drop)]
pub enum Judged<'a> {
    /// The first rule that fails.
    Denied(Rule),
    Passed {
        /// The URI without its package.
        content: Uri,
        /// The token, which stands in the request.
        token: TokenRef<'a>,
        claims: Claims,
        /// The place in the ring of the key that verifies.
        key: usize,
    },
}
