//! How a connection ends.

/// How a connection ends.
#[derive(Clone, Copy, Debug, PartialEq, Eq)]
pub enum End {
    /// The source ended between heads, or the last request was answered (RFC 9112 section 9.3).
    Closed,
    /// The source ended within a head.
    CutShort,
    /// No bytes that can follow make a head.
    BadHead,
    /// A head has too many bytes.
    HeadTooLong,
    /// A head has too many fields.
    ManyHeaders,
    /// A read failed.
    ReadFault,
    /// A head announces a body.
    Body,
    /// [`MAX_HEADS`](crate::MAX_HEADS) heads were answered.
    Enough,
    /// A put failed.
    WriteFault,
    /// There was no memory. A nonce taken before stays taken.
    NoMemory,
}
