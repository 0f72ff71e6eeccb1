//! What an edge judges by.
use usp_base::Rows;
use usp_ext::Extensions;
use usp_json::Text;
use usp_jws::Ring;
use usp_package::AttrName;

/// What requests are judged by.
#[derive(Drop)]
pub struct Profile {
    /// The keys that may verify a token.
    pub ring: Ring,
    /// The issuers whose tokens are accepted.
    pub issuers: Rows<Text>,
    /// The identities of the edge, one of which an audience must have.
    pub audience: Rows<Text>,
    /// The name under which a URI, or a cookie, brings its token.
    pub attribute: AttrName,
    /// The tests of the claims that a token may want to be understood.
    pub extensions: Extensions,
}
