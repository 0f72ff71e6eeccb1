//! The segments of a path.

ghost use Rattle.std.specs.Prelude.{◌≡◌, length};
ghost use Rattle.usp_uri.specs.Normal.{segments_of};

use crate::delimited::cut_at_slash;

/// How many segments a path has, each behind a '/'.
pub fn count_segments(path: &[u8]) -> usize
    ensures { result ≡ length (segments_of path.now) }
{
    let mut count: usize = 0;
    let mut rest = path;
    while let [_, after @ ..] = rest {
        let (_, next) = cut_at_slash(after);
        count += 1;
        rest = next;
    }
    count
}
