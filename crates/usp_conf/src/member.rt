//! The names of members.
ghost use Rattle.std.specs.Prelude.{◌≡◌};
ghost use Rattle.usp_conf.specs.Members.{name_of};

/// A member of a configuration, or of an object in it.
#[derive(Clone, Copy, Debug, PartialEq, Eq)]
pub enum Member {
    Edge,
    Scheme,
    Attribute,
    Keys,
    Issuers,
    Audience,
    SignKid,
    Room,
    Extensions,
    Routes,
    Enforce,
    Kid,
    Issuer,
    Secret,
    Claim,
    Test,
    Setting,
    Prefix,
    Authority,
}

impl Member {
    /// The name in the text.
    pub fn name(self) -> &'static str
        ensures { result.now ≡ name_of self }
    {
        match self {
            Member::Edge => "edge",
            Member::Scheme => "scheme",
            Member::Attribute => "attribute",
            Member::Keys => "keys",
            Member::Issuers => "issuers",
            Member::Audience => "audience",
            Member::SignKid => "sign_kid",
            Member::Room => "room",
            Member::Extensions => "extensions",
            Member::Routes => "routes",
            Member::Enforce => "enforce",
            Member::Kid => "kid",
            Member::Issuer => "issuer",
            Member::Secret => "secret",
            Member::Claim => "claim",
            Member::Test => "test",
            Member::Setting => "setting",
            Member::Prefix => "prefix",
            Member::Authority => "authority",
        }
    }

    /// What must stand there, for a reader of a refusal.
    pub fn form(self) -> &'static str {
        match self {
            Member::Edge | Member::Issuer => "a text that is an identity",
            Member::Scheme => "\"http\" or \"https\"",
            Member::Attribute => "a text of letters, digits, `-` and `_`",
            Member::Keys => "a list of objects with `kid`, `issuer` and `secret`",
            Member::Issuers => "a list of identities",
            Member::Audience => "a list of identities, and in a route one identity",
            Member::SignKid => "the `kid` of a key whose issuer is one of `issuers`",
            Member::Room => "a whole number, how many nonces are held",
            Member::Extensions => "a list of objects with `claim`, `test` and `setting`",
            Member::Routes => "a list of objects, with a prefix, a place, a key and an audience",
            Member::Enforce => "true, or leave it out",
            Member::Kid => "a text of letters, digits, `-`, `.` and `_`",
            Member::Secret => "the base64url, without padding, of random bytes",
            Member::Claim => "the name of a claim that has no meaning of its own",
            Member::Test => "any, equals, one_of, at_most or path_prefix",
            Member::Setting => "what the test compares with, of the kind that the test has",
            Member::Prefix => "the front of a path in ASCII, which begins with `/`",
            Member::Authority => "the host of an http or https URI, and perhaps a port",
        }
    }
}
