//! The limits of tokens, keys and rings.

/// The most bytes of a token. Of this project.
pub const MAX_TOKEN: usize = 8192;

/// The most bytes of a payload that is sealed. Of this project: the token is then within [`MAX_TOKEN`].
pub const MAX_PAYLOAD: usize = 6000;

/// The fewest bytes of a secret: those of the hash's result (RFC 7518 section 3.2).
pub const MIN_SECRET: usize = 32;

/// The most bytes of a secret: one block of the hash (RFC 2104 section 2). Of this project.
pub const MAX_SECRET: usize = 64;

/// The most letters of a key's name. Of this project.
pub const MAX_KID: usize = 64;

/// The most characters of the name of an issuer or an edge. Of this project.
pub const MAX_IDENTITY: usize = 128;

/// The most keys of a ring. Of this project.
pub const MAX_KEYS: usize = 64;

/// The letters of a digest of 32 bytes in base64url (RFC 4648 section 5).
pub const DIGEST_LETTERS: usize = 43;
