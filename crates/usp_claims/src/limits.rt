//! How long and how large the claims may be.

/// The most bytes of a payload that is read. A limit of this project.
pub const MAX_PAYLOAD: usize = 4096;

/// The most bytes of the canonical text of claims, which changes make longer than the payload was. A limit of this
/// project.
pub const MAX_CANONICAL: usize = 6000;

/// The largest number of a claim, and so the last second of a date (RFC 7519 section 2, NumericDate): 2^53 - 1, up to
/// which each reader of JSON has the same whole numbers (RFC 8259 section 6).
pub const MAX_NUMBER: u64 = 9_007_199_254_740_991;

/// The most seconds that a renewed token may live (RFC 9246 section 2.1.12): 2^52, so that a date and a period are no
/// more than 2^53. A limit of this project.
pub const MAX_PERIOD: u64 = 4_503_599_627_370_496;
