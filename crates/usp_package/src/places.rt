//! Where a package may stand in a text.

ghost use Rattle.std.specs.Prelude.{◌≡◌, ◌≤◌, ◌<◌, ◌+◌, length, None, Some, IfNone, IsTrue, IfSome, position};
ghost use Rattle.usp_uri.specs.Delimited.{until, from_first};
ghost use Rattle.usp_package.specs.Package.{first_from, authority_start, zones_of, separates, is_place_at, is_named, ends_run};
ghost use Rattle.usp_package.specs.Bounds.{zones};

use usp_uri::{cut_at_hash, cut_authority, cut_path};

/// Offsets: where the path begins, where it ends, and where the query with its '?' ends.
#[derive(Clone, Copy)]
pub struct Bounds {
    pub path: usize,
    pub query: usize,
    pub tail: usize,
}

// The offset behind the first "://".
fn authority_start(uri: &[u8]) -> Option<usize>
    ensures value { result ≡ authority_start uri.now }
    ensures within { IfSome result (λ start. start ≤ length uri.now) }
{
    let mut at: usize = 0;
    let mut rest = uri;
    while let [_, after @ ..] = rest {
        if rest.starts_with(b"://") {
            return Some(at + 3);
        }
        at += 1;
        rest = after;
    }
    None
}

/// The zones of a text. None where it holds no "://".
pub fn bounds_of(uri: &[u8]) -> Option<Bounds>
    ensures none { IfNone result (zones_of uri.now ≡ None) }
    ensures some { IfSome result (λ bounds. zones_of uri.now ≡ Some (zones bounds)) }
{
    let start = authority_start(uri)?;
    let (_, behind) = uri.split_at(start);
    let (authority, target) = cut_authority(behind);
    let (path, query) = cut_path(target);
    let (query, _) = cut_at_hash(query);
    let path_start = start + authority.len();
    let path_end = path_start + path.len();
    Some(Bounds {
        path: path_start,
        query: path_end,
        tail: path_end + query.len(),
    })
}

// Whether a package may begin after this byte.
fn separates(bounds: &Bounds, at: usize, c: u8) -> bool
    ensures { result ≡ separates (zones bounds.now) at c }
{
    match c {
        b';' => bounds.path <= at && at < bounds.query,
        b'?' => at == bounds.query,
        b'&' => bounds.query < at && at < bounds.tail,
        _ => false,
    }
}

// Whether the text begins with the name and '='.
fn begins_with_name(name: &[u8], text: &[u8]) -> bool
    ensures value { result ≡ is_named name.now text.now }
    ensures room { IsTrue result → length name.now + 1 ≤ length text.now }
{
    if !text.starts_with(name) {
        return false;
    }
    let (_, after) = text.split_at(name.len());
    matches!(after, [b'=', ..])
}

/// The offset of the first place.
pub fn first_place(name: &[u8], bounds: &Bounds, uri: &[u8]) -> Option<usize>
    ensures value { result ≡ first_from (is_place_at name.now (zones bounds.now)) 0 uri.now }
    ensures room { IfSome result (λ at. at + length name.now + 2 ≤ length uri.now) }
{
    let mut at: usize = 0;
    let mut rest = uri;
    while let [c, after @ ..] = rest {
        if separates(bounds, at, *c) && begins_with_name(name, after) {
            return Some(at);
        }
        at += 1;
        rest = after;
    }
    None
}

// The offset of the first byte that ends a run.
fn find_run_end(text: &[u8]) -> Option<usize>
    ensures { result ≡ position ends_run text.now }
{
    text.iter().position(|c| !(c.is_ascii_alphanumeric() || matches!(*c, b'-' | b'_' | b'.')))
}

/// The longest run at the front of the text, and the text behind it.
#[tactic(auto, using(usp_uri::proofs::CutLemmas::cut_rules))]
pub fn cut_run(text: &[u8]) -> (&[u8], &[u8])
    ensures front { result.0.now ≡ until ends_run text.now }
    ensures back { result.1.now ≡ from_first ends_run text.now }
{
    let end = find_run_end(text).unwrap_or(text.len());
    text.split_at(end)
}
