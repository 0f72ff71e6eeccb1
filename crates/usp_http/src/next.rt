//! What comes next on a connection.

use crate::Head;
use std::error::Error;
use std::fmt;

/// Why no head comes, whatever follows.
#[derive(Clone, Copy, Debug, PartialEq, Eq)]
pub enum HeadFault {
    /// The source has ended, and what is left is no whole head.
    CutShort,
    /// No bytes that can follow make a head.
    BadHead,
    /// The first `MAX_HEAD` bytes hold no whole head.
    HeadTooLong,
    /// The head has more than `MAX_FIELDS` fields.
    ManyHeaders,
}

impl fmt::Display for HeadFault {
    fn fmt<W: fmt::Write>(&self, f: &mut fmt::Formatter<W>) -> fmt::Result {
        match self {
            HeadFault::CutShort => write!(f, "the connection ended within a head: send it whole"),
            HeadFault::BadHead => write!(
                f,
                "not the head of an HTTP/1.1 request: mend its first line and its fields"
            ),
            HeadFault::HeadTooLong => write!(
                f,
                "the head is longer than 16,384 bytes: send fewer or shorter fields"
            ),
            HeadFault::ManyHeaders => write!(f, "the head has more than 64 fields: send fewer"),
        }
    }
}

impl Error for HeadFault {}

/// What comes next on a connection.
#[derive(Drop, Debug)]
pub enum Next {
    Found(Head),
    /// The source has ended, and nothing is left.
    Ended,
    /// The source has ended, and what is left is no whole head.
    CutShort,
    /// No bytes that can follow make a head.
    BadHead,
    /// The first `MAX_HEAD` bytes hold no whole head.
    HeadTooLong,
    /// The head has more than `MAX_FIELDS` fields.
    ManyHeaders,
    /// A read failed.
    ReadFault,
    /// There was no memory.
    NoMemory,
}
