//! Why a reader of heads looks again.

/// Why no more bytes were read.
#[derive(Clone, Copy, PartialEq, Eq)]
pub(crate) enum Pause {
    /// A head may have come.
    Enough,
    /// A read answered 0.
    Over,
    /// A read failed.
    Broken,
}
