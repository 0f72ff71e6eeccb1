//! What a call of a nonce table answers.

/// What became of a nonce.
#[derive(Clone, Copy, Debug, PartialEq, Eq)]
pub enum Answer {
    /// The nonce would not be held beyond the moment of the call.
    Late,
    /// The nonce is held already.
    Seen,
    /// The table holds as many nonces as it has room for.
    Full,
    /// The nonce is now held.
    Taken,
}

/// The answer to one call of a nonce table.
#[derive(Clone, Copy, Debug, PartialEq, Eq)]
pub struct Turned {
    /// How many calls were made before.
    pub place: u64,
    /// The greatest `now` of all calls so far, in seconds since 1970.
    pub moment: u64,
    pub answer: Answer,
}
