//! What is issued.
ghost use Rattle.std.specs.Prelude.{◌≡◌};
ghost use Rattle.usp_trace.specs.Issues.{parent_of, token_of};

use usp_jws::Token;
use usp_uri::Uri;

/// A token that a provider granted, or that an edge issued for a use of an earlier one: for the request of a URI at
/// a moment (RFC 9246 section 3). The edge is a place in a list of sites, the route one among that site's routes, and
/// the parent the first place in the ledger of the token that was used.
#[derive(Drop)]
pub enum Issue {
    /// A provider granted it.
    Grant {
        /// The token that was granted.
        token: Token,
    },
    /// An edge renewed it.
    Renewed {
        /// The first place of the token that was used.
        parent: u32,
        /// The place of the site that renewed it.
        edge: u16,
        /// The content that was asked for.
        uri: Uri,
        /// When it was asked for, in seconds since 1970.
        moment: u64,
        /// The new token.
        token: Token,
    },
    /// An edge signed it again, for the place that it sent the request on to.
    Resigned {
        /// The first place of the token that was used.
        parent: u32,
        /// The place of the site that sent the request on.
        edge: u16,
        /// The content that was asked for.
        uri: Uri,
        /// When it was asked for, in seconds since 1970.
        moment: u64,
        /// The place of the route among those of the site.
        route: u16,
        /// The new token.
        token: Token,
    },
}

impl Issue {
    /// The token that was issued.
    pub fn token(&self) -> &Token
        ensures { result.now ≡ token_of self.now }
    {
        match self {
            Issue::Grant { token } => token,
            Issue::Renewed { token, .. } => token,
            Issue::Resigned { token, .. } => token,
        }
    }

    /// The place of the token that was used, of which a grant has none.
    pub fn parent(&self) -> Option<u32>
        ensures { result ≡ parent_of self.now }
    {
        match self {
            Issue::Grant { .. } => None,
            Issue::Renewed { parent, .. } => Some(*parent),
            Issue::Resigned { parent, .. } => Some(*parent),
        }
    }
}
