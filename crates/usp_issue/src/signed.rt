//! What a request is sent on with.

use usp_base::Octets;
use usp_jws::Token;
use usp_uri::Uri;

/// A content signed for a route.
#[derive(Drop)]
pub struct Signed {
    /// The content at the route's place.
    pub target: Uri,
    /// The token that is signed for it.
    pub token: Token,
    /// The target with the token as its package.
    pub location: Octets,
}
