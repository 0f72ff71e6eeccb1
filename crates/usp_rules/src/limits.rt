//! Lengths that do not change.

/// The bytes of a segment: `sha-256;` and a digest in base64url (RFC 6920 section 5).
pub const SEGMENT_LEN: usize = 51;
