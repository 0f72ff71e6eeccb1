//! The tree of an expression.
ghost use Rattle.usp_ere.specs.Bytes.{Holds};

use crate::bytes::ByteSet;
use crate::class::Element;
use usp_base::Rows;

/// `[set]`, or `[^set]` where it is negated, with the bytes that it holds.
#[derive(Debug, Drop)]
pub struct Set {
    pub negated: bool,
    pub elements: Rows<Element>,
    pub bytes: ByteSet,
    ghost held: { Holds bytes negated elements },
}

/// An expression. Groups are gone: they only show what stands under what.
#[derive(Drop)]
pub enum Tree {
    Byte(u8),
    Any,
    OneOf(Set),
    /// `^`: the begin of the whole text.
    Begin,
    /// `$`: the end of the whole text.
    End,
    /// One after the other.
    Both(Box<Tree>, Box<Tree>),
    /// One or the other.
    Either(Box<Tree>, Box<Tree>),
    /// At least so many pieces, and at most so many where there is a most.
    Repeat(Box<Tree>, u8, Option<u8>),
}
