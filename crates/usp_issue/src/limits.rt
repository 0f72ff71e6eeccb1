//! What this crate allows at most.

ghost use Rattle.std.specs.Prelude.{◌≡◌};
ghost use Rattle.usp_issue.specs.declared.limits.TheConstants.{MAX_CLAIMS, MAX_ROUTES, MAX_TOKEN};

/// The most routes of a site, a limit of this project.
pub const MAX_ROUTES: usize = 16;

/// The most bytes of canonical claims that are renewed or signed again, a limit of this project: it
/// leaves room for what changes.
pub const MAX_CLAIMS: usize = 5000;

/// The most bytes of a token that is renewed or signed again. It fits a head beside a URI.
pub const MAX_TOKEN: usize = 7400;

// How many bytes another issuer or audience adds to the canonical text of claims at most.
pub(crate) const IDENTITY_GROWTH: usize = 137;

// The same of a moment.
pub(crate) const MOMENT_GROWTH: usize = 23;

// The same of the container of one content.
pub(crate) const CONTAINER_GROWTH: usize = 68;

// The most bytes of the canonical text of claims that were renewed, or are signed again.
pub(crate) const MAX_CHANGED: usize = MAX_CLAIMS
    + CONTAINER_GROWTH
    + 2 * IDENTITY_GROWTH
    + MOMENT_GROWTH;

/// The number behind each limit's name.
pub fn limits_are_told()
    ensures routes { MAX_ROUTES ≡ 16 }
    ensures claims { MAX_CLAIMS ≡ 5000 }
    ensures token { MAX_TOKEN ≡ 7400 }
{}
