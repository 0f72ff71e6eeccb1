//! The kinds of tests, and what each is told.

use usp_json::{Items, Text};

/// A test of a claim that a token says must be understood (RFC 9246 section 2.1.9).
#[derive(Clone, Copy, Debug, PartialEq, Eq)]
pub enum TestKind {
    /// Each value passes.
    Any,
    /// The value is the text of the setting.
    Equals,
    /// The value is one of the texts of the setting.
    OneOf,
    /// The value is a whole number, spelled with digits alone, at most the setting.
    AtMost,
    /// The value is a text with which the path of the content begins.
    PathPrefix,
}

/// What a test is told. Each kind has one shape of it, and under another it passes no value.
#[derive(Drop)]
pub enum Setting {
    /// Of `Any` and `PathPrefix`.
    Nothing,
    /// Of `Equals`.
    Words(Text),
    /// Of `OneOf`: texts alone.
    Several(Items),
    /// Of `AtMost`: at most `usp_claims::MAX_NUMBER`.
    Number(u64),
}

/// A claim with the test of its values.
#[derive(Drop)]
pub struct Extension {
    /// The name of the claim.
    pub claim: Text,
    pub kind: TestKind,
    pub setting: Setting,
}
