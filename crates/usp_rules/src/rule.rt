//! The rules by number and name.
ghost use Rattle.std.specs.Prelude.{◌≡◌};
ghost use Rattle.usp_rules.specs.Names.{name_of, number_of};

/// A rule that a request may break (RFC 9246 sections 2 and 3), in the order in which they are tried.
#[derive(Clone, Copy, Debug, PartialEq, Eq)]
pub enum Rule {
    /// The URI has a normal form, its package still in it.
    Uri,
    /// The URI has a package, or a cookie brings a token.
    Missing,
    /// The package ends as it may, and what is brought is a token.
    Package,
    /// The token's header is one that is read (RFC 7515 section 4.1).
    Header,
    /// A key of the ring verifies the token.
    Signature,
    /// The payload is a claim set.
    Claims,
    /// `cdniv` is 1.
    Version,
    /// Each claim that `cdnicrit` names is understood.
    Critical,
    /// No claim is encrypted.
    Encrypted,
    /// `iss` is a known issuer, and that of the key.
    Issuer,
    /// `aud` is an identity of this edge, or lists one.
    Audience,
    /// The moment has reached `nbf`.
    NotBefore,
    /// The moment has not reached `exp`.
    Expired,
    /// `cdnistt` is 0, or 1 beside `cdniets`.
    Renewal,
    /// The container meets the content.
    Container,
    /// The nonce is not past its time.
    Late,
    /// The nonce is not taken.
    Seen,
    /// There is room for the nonce.
    Room,
}

impl Rule {
    /// From 1 to 18.
    pub fn number(self) -> u64
        ensures { result ≡ number_of self }
    {
        match self {
            Rule::Uri => 1,
            Rule::Missing => 2,
            Rule::Package => 3,
            Rule::Header => 4,
            Rule::Signature => 5,
            Rule::Claims => 6,
            Rule::Version => 7,
            Rule::Critical => 8,
            Rule::Encrypted => 9,
            Rule::Issuer => 10,
            Rule::Audience => 11,
            Rule::NotBefore => 12,
            Rule::Expired => 13,
            Rule::Renewal => 14,
            Rule::Container => 15,
            Rule::Late => 16,
            Rule::Seen => 17,
            Rule::Room => 18,
        }
    }

    pub fn name(self) -> &'static [u8]
        ensures { result.now ≡ name_of self }
    {
        match self {
            Rule::Uri => b"Uri",
            Rule::Missing => b"Missing",
            Rule::Package => b"Package",
            Rule::Header => b"Header",
            Rule::Signature => b"Signature",
            Rule::Claims => b"Claims",
            Rule::Version => b"Version",
            Rule::Critical => b"Critical",
            Rule::Encrypted => b"Encrypted",
            Rule::Issuer => b"Issuer",
            Rule::Audience => b"Audience",
            Rule::NotBefore => b"NotBefore",
            Rule::Expired => b"Expired",
            Rule::Renewal => b"Renewal",
            Rule::Container => b"Container",
            Rule::Late => b"Late",
            Rule::Seen => b"Seen",
            Rule::Room => b"Room",
        }
    }
}
