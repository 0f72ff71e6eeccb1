//! The places of a text at which a walk starts, and what it goes over.
use crate::bytes::ByteSet;
use crate::nodes::Node;

/// At which places of a text a walk starts.
#[derive(Clone, Copy, Debug)]
pub enum Places {
    /// At one place alone.
    At(usize),
    /// At each place before a byte of the set.
    Before(ByteSet),
    /// At each place, the end among them.
    Anywhere,
}

/// The node from which a walk starts, and at which places.
#[derive(Clone, Copy, Debug)]
pub struct Start {
    pub node: u16,
    pub places: Places,
}

/// What a walk goes over.
#[derive(Clone, Copy)]
pub struct Course<'a> {
    pub nodes: &'a [Node],
    pub start: Start,
    pub text: &'a [u8],
}
