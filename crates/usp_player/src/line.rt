//! The lines of a playlist (RFC 8216, section 4.1).
ghost use Rattle.std.specs.Prelude.{◌≡◌};
ghost use Rattle.usp_player.specs.ListLines.{list_line_of, tag_line_of};
ghost use Rattle.usp_player.specs.SeenLines.{seen};

use usp_base::after_prefix;

/// What a line behind the first is to a player.
#[derive(Clone, Copy)]
pub(crate) enum Line<'a> {
    /// What stands behind `#EXTINF:`.
    Inf(&'a [u8]),
    /// What stands behind `#EXT-X-TARGETDURATION:`.
    Target(&'a [u8]),
    /// `#EXT-X-BYTERANGE:`.
    Range,
    /// `#EXT-X-ENDLIST`.
    End,
    Uri(&'a [u8]),
    /// An empty line, a comment, or another tag.
    Other,
}

// A line that begins with '#'.
fn tag_line_of(line: &[u8]) -> Line<'_>
    ensures { seen result ≡ tag_line_of line.now }
{
    if let Some(text) = after_prefix(line, b"#EXTINF:") {
        return Line::Inf(text);
    }
    if let Some(digits) = after_prefix(line, b"#EXT-X-TARGETDURATION:") {
        return Line::Target(digits);
    }
    if after_prefix(line, b"#EXT-X-BYTERANGE:").is_some() {
        Line::Range
    } else if line == b"#EXT-X-ENDLIST".as_slice() {
        Line::End
    } else {
        Line::Other
    }
}

/// What a line is to a player.
pub(crate) fn list_line_of(line: &[u8]) -> Line<'_>
    ensures { seen result ≡ list_line_of line.now }
{
    match line {
        [] => Line::Other,
        [first, ..] if *first == b'#' => tag_line_of(line),
        [_, ..] => Line::Uri(line),
    }
}
