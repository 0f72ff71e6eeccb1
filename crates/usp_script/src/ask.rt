//! What is asked of the edges of a lab.

use usp_base::{Octets, Rows};
use usp_jws::Token;
use usp_uri::Uri;

/// A token by its kind and its number, which counts from 1.
#[derive(Clone, Copy, Debug, PartialEq, Eq)]
pub enum Label {
    /// `g1`: what is granted.
    Granted(u32),
    /// `x1`: a token that is sealed and not granted.
    Outside(u32),
    /// `i1`: what the ask of that number issued, if it issued one.
    Issued(u32),
}

/// How an ask carries its token.
#[derive(Clone, Copy, Debug, PartialEq, Eq)]
pub enum Carried {
    /// It carries none.
    Nothing,
    /// As the package of its URI, in the query (RFC 9246 section 2).
    InQuery(Label),
    /// In a cookie (RFC 9246 section 3).
    InCookie(Label),
}

/// A request at an edge, by its place among the edges.
#[derive(Drop)]
pub struct LabAsk {
    pub edge: u32,
    /// In seconds since 1970.
    pub moment: u64,
    /// Without the token that it is to carry.
    pub uri: Uri,
    pub carried: Carried,
}

/// An object of an edge, by its place among the edges.
#[derive(Drop)]
pub struct LabObject {
    pub edge: u32,
    pub uri: Uri,
    pub text: Octets,
}

/// Asks that are made at once, and what is granted before them.
#[derive(Drop)]
pub struct Round {
    pub grants: Rows<Token>,
    pub asks: Rows<LabAsk>,
}
