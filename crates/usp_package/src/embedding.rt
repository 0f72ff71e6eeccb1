//! Putting a package into a URI, and a content text together.

ghost use Rattle.std.specs.Prelude.{◌≡◌, ◌++◌, ◌+◌, ◌<◌, ◌≤◌, length, true, IfOk, Ok, []};
ghost use Rattle.std.specs.List.{list_all};
ghost use Rattle.std.specs.Option.{option_copied};
ghost use Rattle.usp_uri.specs.Components.{query_in};
ghost use Rattle.usp_uri.specs.Faults.{normal_of};
ghost use Rattle.usp_uri.specs.declared.limits.TheConstants.{MAX_LEN};
ghost use Rattle.usp_package.specs.Package.{embedded, is_run_byte, package_of, nothing, carried};

use crate::name::AttrName;
use std::alloc::{AllocError, Global};
use std::error::Error;
use std::fmt;
use usp_uri::Uri;

/// There is no memory left.
#[derive(Clone, Copy, Debug, PartialEq, Eq)]
pub struct NoMemory;

impl From<AllocError> for NoMemory {
    fn from(_: AllocError) -> NoMemory {
        NoMemory
    }
}

impl fmt::Display for NoMemory {
    fn fmt<W: fmt::Write>(&self, f: &mut fmt::Formatter<W>) -> fmt::Result {
        write!(f, "there is no memory left: give the program more")
    }
}

impl Error for NoMemory {}

/// The one followed by the other: of what `find` gives, the content text.
pub fn concatenate(alloc: Global, before: &[u8], after: &[u8]) -> Result<Vec<u8>, NoMemory>
    ensures { IfOk result (λ text. text.items ≡ before.now ++ after.now) }
{
    let mut text = Vec::new(alloc);
    text.extend_from_slice(before)?;
    text.extend_from_slice(after)?;
    Ok(text)
}

// A text with a package at its end, behind '&' where it has a query, and behind '?' else.
fn with_package(
    alloc: Global,
    name: &[u8],
    uri: &[u8],
    query: Option<&[u8]>,
    token: &[u8],
) -> Result<Vec<u8>, AllocError>
    ensures { IfOk result (λ text.
        text.items ≡ embedded name.now uri.now (option_copied query.entry) token.now) }
{
    let joint = if query.is_some() { b'&' } else { b'?' };
    let mut text = Vec::new(alloc);
    text.extend_from_slice(uri)?;
    text.push(joint)?;
    text.extend_from_slice(name)?;
    text.push(b'=')?;
    text.extend_from_slice(token)?;
    Ok(text)
}

/// The URI with the package at its end: `?name=token` where the URI has no query, and
/// `&name=token` where it has one, an empty one too (RFC 9246 section 2).
pub fn embed(alloc: Global, name: &AttrName, uri: &Uri, token: &[u8]) -> Result<Vec<u8>, NoMemory>
    requires some { 0 < length token.now }
    requires run { list_all is_run_byte token.now ≡ true }
    requires none { package_of name.now uri.now ≡ nothing }
    ensures text { IfOk result (λ text.
        text.items ≡ embedded name.now uri.now (query_in uri.now) token.now) }
    ensures length { IfOk result (λ text.
        length text.items ≡ length uri.now + length name.now + length token.now + 2) }
    // Found again it is this token, with the whole URI before it and nothing after.
    ensures back { IfOk result (λ text.
        package_of name.now text.items ≡ carried token.now uri.now []) }
    // A URI in normal form again, where it is short enough to be read.
    ensures normal { IfOk result (λ text.
        length text.items ≤ MAX_LEN → normal_of text.items ≡ Ok text.items) }
{
    let text = with_package(alloc, name.text(), uri.text(), uri.query(), token)?;
    Ok(text)
}
