//! What a token was used for.

use usp_claims::Claims;
use usp_uri::Uri;

/// A use of a token: its claims, the content that it admitted, and when.
#[derive(Clone, Copy)]
pub struct Use<'a> {
    pub claims: &'a Claims,
    pub content: &'a Uri,
    /// In seconds since 1970.
    pub moment: u64,
}
