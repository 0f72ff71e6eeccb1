//! URIs in normal form, and the places they may be moved to.

ghost use Rattle.std.specs.Prelude.{◌≡◌, ◌≤◌, ℕ, List, length, Ok, Err, IfOk, IfErr, OnOk, ◌++◌, codes};
ghost use Rattle.std.specs.Option.{option_copied};
ghost use Rattle.usp_uri.specs.Components.{Components, scheme_in, authority_in, path_in, query_in, text_of};
ghost use Rattle.usp_uri.specs.Delimited.{with_mark};
ghost use Rattle.std.specs.Str.{byte};
ghost use Rattle.usp_uri.specs.Normal.{normal_components};
ghost use Rattle.usp_uri.specs.Faults.{normal_of};
ghost use Rattle.usp_uri.specs.Grammar.{Spells};
ghost use Rattle.usp_uri.specs.Answers.{Gives, Refuses};
ghost use Rattle.usp_uri.specs.Segments.{segments_in};
ghost use Rattle.usp_uri.specs.declared.limits.TheConstants.{MAX_LEN};
ghost use Rattle.usp_uri.specs.Origin.{IsNormalOrigin, origin_text, origin_of, moved_of, request_text};

use crate::component_slices::ComponentSlices;
use crate::delimited::cut_at_colon;
use crate::fault::{NoMemory, UriFault};
use crate::lengths::outgrows;
use crate::limits::MAX_LEN;
use crate::reading::{cut_normal, path_start, read, split_normal};
use crate::segments::count_segments;
use crate::writing::normal;
use std::alloc::{AllocError, Global};
use std::marker::Model;

/// A URI in normal form, of at most `MAX_LEN` bytes. Contracts see its text.
#[derive(Drop)]
pub struct Uri {
    text: Vec<u8>,
}

impl Model for Uri {
    ghost use Rattle.std.specs.Prelude.{◌≡◌, List, ℕ, Ok};
    ghost use Rattle.usp_uri.specs.Faults.{normal_of};

    ghost Value = { List ℕ };

    ghost view = { λ u. u.text.items };

    ghost invariant = { λ u. normal_of u.text.items ≡ Ok u.text.items };
}

impl Uri {
    /// The whole text.
    #[tactic(auto, using(crate::proofs::PlaceLaws::parts_whole))]
    pub fn text(&self) -> &[u8]
        ensures value { result.now ≡ self.now }
        // Read again it is the same URI.
        ensures normal { normal_of self.now ≡ Ok self.now }
        // It is what the other accessors give, put together.
        ensures whole { self.now ≡ origin_text (scheme_in self.now) (authority_in self.now)
            ++ (path_in self.now ++ with_mark (byte "?") (query_in self.now)) }
    {
        &self.text
    }

    pub fn scheme(&self) -> &[u8]
        ensures { result.now ≡ scheme_in self.now }
    {
        cut_normal(&self.text).scheme
    }

    /// The host, and the port with its ':' where there is one.
    pub fn authority(&self) -> &[u8]
        ensures { result.now ≡ authority_in self.now }
    {
        split_normal(&self.text).0
    }

    pub fn path(&self) -> &[u8]
        ensures { result.now ≡ path_in self.now }
    {
        cut_normal(&self.text).path
    }

    /// How many segments the path has: the parts behind its first '/', parted by '/'. The path "/"
    /// has one, which is empty.
    pub fn segment_count(&self) -> usize
        ensures { result ≡ length (segments_in self.now) }
    {
        count_segments(self.path())
    }

    /// None exactly where there is no query. An empty one is a query.
    pub fn query(&self) -> Option<&[u8]>
        ensures { option_copied result ≡ query_in self.now }
    {
        cut_normal(&self.text).query
    }
}

/// The normal form of a text, or its first fault.
fn read_text(alloc: Global, text: &[u8]) -> Result<Vec<u8>, UriFault>
    ensures ok { IfOk result (λ normal. normal_of text.now ≡ Ok normal.items) }
    ensures refused { IfErr result (λ found. Refuses found (normal_of text.now)) }
{
    let slices = read(text)?;
    let normal_form = normal(alloc, &slices)?;
    if normal_form.len() > MAX_LEN {
        return Err(UriFault::TooLong);
    }
    Ok(normal_form)
}

/// The normal form of a text.
///
/// # Errors
///
/// The first fault of the text in this order: `TooLong`, `Scheme`, `Userinfo`, the host, the port,
/// then the first byte of the rest that may not stand there. `TooLong` once more at the end, where
/// the normal form passes `MAX_LEN` by the '/' of an empty path.
pub fn read_uri(alloc: Global, text: &[u8]) -> Result<Uri, UriFault>
    // What is read is spelled by the grammar, and is the normal form of its components.
    ensures found { IfOk result (λ uri. (p : Components) × Spells p text.now × (uri ≡ text_of (normal_components p))) }
    // What is spelled so, and is short enough, is read.
    ensures only { (p : Components) → Spells p text.now → length text.now ≤ MAX_LEN
        → length (text_of (normal_components p)) ≤ MAX_LEN → Gives result (Ok (text_of (normal_components p))) }
    // Which fault it is.
    ensures exact { Gives result (normal_of text.now) }
{
    let text = read_text(alloc, text)?;
    Ok(Uri { text })
}

/// Whether the text is a URI of this product. It is exactly where `read_uri` reads it, and no memory
/// is taken.
///
/// # Errors
///
/// The fault that `read_uri` finds.
pub fn check_uri(text: &[u8]) -> Result<(), UriFault>
    ensures ok { OnOk result ((normal : List ℕ) × (normal_of text.now ≡ Ok normal)) }
    ensures refused { IfErr result (λ found. normal_of text.now ≡ Err found) }
{
    let slices = read(text)?;
    if outgrows(&slices) {
        return Err(UriFault::TooLong);
    }
    Ok(())
}

/// The one text of a scheme, "://" and an authority.
fn origin_text(alloc: Global, scheme: &[u8], authority: &[u8]) -> Result<Vec<u8>, AllocError>
    ensures { IfOk result (λ text. text.items ≡ origin_text scheme.now authority.now) }
{
    let mut text = Vec::new(alloc);
    text.extend_from_slice(scheme)?;
    text.extend_from_slice(b"://")?;
    text.extend_from_slice(authority)?;
    Ok(text)
}

/// Where a URI may be moved to: a scheme and an authority in normal form. Contracts see an `Origin`.
#[derive(Drop)]
pub struct Place {
    /// The URI of the place, whose path is "/".
    root: Uri,
}

impl Model for Place {
    ghost use Rattle.std.specs.Prelude.{◌≡◌, List, ℕ, ◌++◌, codes};
    ghost use Rattle.usp_uri.specs.Origin.{Origin, origin_text};
    ghost use Rattle.usp_uri.specs.Components.{scheme_in, authority_in};

    ghost Value = { Origin };

    ghost view = { λ p. record { scheme = scheme_in p.root; authority = authority_in p.root } };

    ghost invariant = { λ p. p.root ≡ origin_text (scheme_in p.root) (authority_in p.root) ++ codes "/" };
}

impl Place {
    /// The place that a scheme and an authority name.
    ///
    /// # Errors
    ///
    /// The fault of `scheme`, "://" and `authority` read as one URI, with its offset in that text;
    /// `Syntax` at the first `/` or `?` behind its first "://", where it is a URI that has one.
    pub fn new(alloc: Global, scheme: &[u8], authority: &[u8]) -> Result<Place, UriFault>
        ensures { Gives result (origin_of (origin_text scheme.now authority.now)) }
    {
        let text = origin_text(alloc, scheme, authority)?;
        let root = read_uri(alloc, &text)?;
        match path_start(&text) {
            Some(at) => Err(UriFault::Syntax { at }),
            None => Ok(Place { root }),
        }
    }

    /// `http` or `https`.
    pub fn scheme(&self) -> &[u8]
        ensures value { result.now ≡ self.now.scheme }
        ensures place { IsNormalOrigin self.now }
    {
        let (scheme, _) = cut_at_colon(self.root.text());
        scheme
    }

    /// The host, and the port with its ':' where there is one.
    pub fn authority(&self) -> &[u8]
        ensures { result.now ≡ self.now.authority }
    {
        self.root.authority()
    }
}

/// The URI's path and query at the place.
///
/// # Errors
///
/// `TooLong`, where the result would be longer than `MAX_LEN`.
pub fn moved(alloc: Global, uri: &Uri, place: &Place) -> Result<Uri, UriFault>
    ensures { Gives result (moved_of uri.now place.now) }
{
    let (_, path_and_query) = split_normal(uri.text());
    let mut text = origin_text(alloc, place.scheme(), place.authority())?;
    text.extend_from_slice(path_and_query)?;
    if text.len() > MAX_LEN {
        return Err(UriFault::TooLong);
    }
    Ok(Uri { text })
}

/// The URI that a request line and a host make, as RFC 9112 section 3.3 does: the target alone
/// where it does not begin with '/'.
pub fn request_uri(
    alloc: Global,
    scheme: &[u8],
    host: &[u8],
    target: &[u8],
) -> Result<Vec<u8>, NoMemory>
    ensures { IfOk result (λ text. text.items ≡ request_text scheme.now host.now target.now) }
{
    let mut text = match target {
        [b'/', ..] => origin_text(alloc, scheme, host)?,
        _ => Vec::new(alloc),
    };
    text.extend_from_slice(target)?;
    Ok(text)
}
