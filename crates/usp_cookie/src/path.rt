//! The path of a cookie.

ghost use Rattle.std.specs.Prelude.{◌≡◌, ◌≤◌, ◌-◌, true, false, [], ◌∷◌, ◌++◌, IfOk, OnOk};
ghost use Rattle.usp_uri.specs.Normal.{path_from, segments_of};
ghost use Rattle.usp_uri.specs.Segments.{segments_in};
ghost use Rattle.usp_cookie.specs.Cookies.{cookie_path, has_semicolon, kept_segments};

use crate::NoMemory;
use std::alloc::Global;
use usp_uri::{Uri, cut_at_slash};

fn has_semicolon(segment: &[u8]) -> bool
    ensures { result ≡ has_semicolon segment.now }
{
    segment.iter().any(|c| *c == b';')
}

/// Whether a segment before this rest of the path is kept, where so many may be.
#[tactic(auto, using(crate::proofs::Keeping::keep_none, crate::proofs::Keeping::keep_not_last, crate::proofs::Keeping::keep_free, crate::proofs::Keeping::keep_next))]
fn keeps(left: u64, segment: &[u8], next: &[u8]) -> bool
    ensures none { result ≡ false → kept_segments left (segment.now ∷ segments_of next.now) ≡ [] }
    ensures more { result ≡ true → kept_segments left (segment.now ∷ segments_of next.now)
        ≡ segment.now ∷ kept_segments (left - 1) (segments_of next.now) }
    ensures some { result ≡ true → 1 ≤ left }
{
    if left == 0 {
        return false;
    }
    if next.is_empty() {
        return false;
    }
    !has_semicolon(segment)
}

/// Adds the leading segments of a path that are kept, each behind a '/'.
fn push_kept(out: &mut Vec<u8>, path: &[u8], depth: u64) -> Result<(), NoMemory>
    ensures { OnOk result (out.new.items ≡ out.old.items ++ path_from (kept_segments depth (segments_of path.now))) }
{
    let mut left = depth;
    let mut rest = path;
    while let [_, after @ ..] = rest {
        let (segment, next) = cut_at_slash(after);
        if !keeps(left, segment, next) {
            break;
        }
        out.push(b'/')?;
        out.extend_from_slice(segment)?;
        left -= 1;
        rest = next;
    }
    Ok(())
}

/// The path of the cookie that carries a token renewed for a content: '/' and the leading segments of
/// the content's path, at most `depth` of them, never the last one, and none from the first that holds
/// a ';' on (RFC 9246 section 2.1.14).
pub fn cookie_path(alloc: Global, uri: &Uri, depth: u64) -> Result<Vec<u8>, NoMemory>
    ensures { IfOk result (λ path. path.items ≡ cookie_path depth (segments_in uri.now)) }
{
    let mut path = Vec::new(alloc);
    push_kept(&mut path, uri.path(), depth)?;
    if path.is_empty() {
        path.push(b'/')?;
    }
    Ok(path)
}
