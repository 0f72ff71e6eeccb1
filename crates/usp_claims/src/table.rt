//! The table of claims.

ghost use Rattle.std.specs.Prelude.{◌≡◌};
ghost use Rattle.usp_claims.specs.Table.{name_of};

/// A claim that this library knows (RFC 7519 section 4.1, RFC 9246 section 2.1).
#[derive(Clone, Copy, Debug, PartialEq, Eq)]
pub enum ClaimName {
    /// `iss`, who signed.
    Iss,
    /// `sub`, encrypted data about the user agent.
    Sub,
    /// `aud`, who may serve.
    Aud,
    /// `exp`, the second at which the token expires.
    Exp,
    /// `nbf`, the second before which the token is not yet valid.
    Nbf,
    /// `iat`, the second at which it was signed.
    Iat,
    /// `jti`, a nonce.
    Jti,
    /// `cdniv`, the version.
    Version,
    /// `cdnicrit`, the names of the claims that must be understood.
    Crit,
    /// `cdniip`, an encrypted address of the client.
    Ip,
    /// `cdniuc`, the container of the URI.
    Uc,
    /// `cdniets`, the seconds that a renewed token lives.
    Ets,
    /// `cdnistt`, how a renewed token is carried.
    Stt,
    /// `cdnistd`, how deep the path of its cookie is.
    Std,
}

/// What the value of a claim is.
#[derive(Clone, Copy, Debug, PartialEq, Eq)]
pub enum ClaimKind {
    /// Any value.
    Any,
    /// A text.
    Text,
    /// A text, or a list of texts.
    TextOrTexts,
    /// A whole number of digits alone, at most `MAX_NUMBER`.
    Number,
    /// A whole number of digits alone, at most `MAX_PERIOD`.
    Period,
}

/// A row of the table.
#[derive(Clone, Copy, Debug, PartialEq, Eq)]
pub struct Row {
    pub name: ClaimName,
    pub kind: ClaimKind,
}

/// The rows, in the order in which they are tried.
pub const ROWS: [Row; 14] = [
    Row {
        name: ClaimName::Iss,
        kind: ClaimKind::Text,
    },
    Row {
        name: ClaimName::Sub,
        kind: ClaimKind::Any,
    },
    Row {
        name: ClaimName::Aud,
        kind: ClaimKind::TextOrTexts,
    },
    Row {
        name: ClaimName::Exp,
        kind: ClaimKind::Number,
    },
    Row {
        name: ClaimName::Nbf,
        kind: ClaimKind::Number,
    },
    Row {
        name: ClaimName::Iat,
        kind: ClaimKind::Number,
    },
    Row {
        name: ClaimName::Jti,
        kind: ClaimKind::Text,
    },
    Row {
        name: ClaimName::Version,
        kind: ClaimKind::Number,
    },
    Row {
        name: ClaimName::Crit,
        kind: ClaimKind::Text,
    },
    Row {
        name: ClaimName::Ip,
        kind: ClaimKind::Any,
    },
    Row {
        name: ClaimName::Uc,
        kind: ClaimKind::Text,
    },
    Row {
        name: ClaimName::Ets,
        kind: ClaimKind::Period,
    },
    Row {
        name: ClaimName::Stt,
        kind: ClaimKind::Number,
    },
    Row {
        name: ClaimName::Std,
        kind: ClaimKind::Number,
    },
];

impl ClaimName {
    /// The name in a claim set.
    pub fn name(self) -> &'static str
        ensures { result.now ≡ name_of self }
    {
        match self {
            ClaimName::Iss => "iss",
            ClaimName::Sub => "sub",
            ClaimName::Aud => "aud",
            ClaimName::Exp => "exp",
            ClaimName::Nbf => "nbf",
            ClaimName::Iat => "iat",
            ClaimName::Jti => "jti",
            ClaimName::Version => "cdniv",
            ClaimName::Crit => "cdnicrit",
            ClaimName::Ip => "cdniip",
            ClaimName::Uc => "cdniuc",
            ClaimName::Ets => "cdniets",
            ClaimName::Stt => "cdnistt",
            ClaimName::Std => "cdnistd",
        }
    }
}
