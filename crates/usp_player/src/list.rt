//! The reading of media playlists (RFC 8216, section 4).
ghost use Rattle.std.specs.Prelude.{◌≡◌, ◌≤◌, None, length};
ghost use Rattle.usp_base.specs.Lines.{lines_of};
ghost use Rattle.usp_player.specs.ListLines.{list_lines_of};
ghost use Rattle.usp_player.specs.Lists.{ReadsList, list_behind, list_in, list_of, list_with};
ghost use Rattle.usp_player.specs.declared.limits.TheConstants.{MAX_PLAYLIST};

use crate::limits::MAX_PLAYLIST;
use crate::reader::Reader;
use crate::{ListFault, Playlist};
use std::alloc::Global;
use std::str::from_utf8;
use usp_base::{Rows, first_line};

fn list_with(reader: Reader) -> Result<Playlist, ListFault>
    ensures { result ≡ list_with None reader.target reader.segments reader.ended }
{
    let Reader {
        target,
        segments,
        ended,
        ..
    } = reader;
    match target {
        None => Err(ListFault::NoTarget),
        Some(target) => Ok(Playlist {
            target,
            segments: Rows::of(segments),
            ended,
        }),
    }
}

// The playlist of the lines behind the first.
#[tactic(auto, using(crate::proofs::Reading::read_behind))]
fn list_behind(alloc: Global, text: &[u8]) -> Result<Playlist, ListFault>
    requires { length text.now ≤ MAX_PLAYLIST }
    ensures { ReadsList result (list_behind (list_lines_of text.now)) }
{
    let mut reader = Reader::new(alloc);
    let mut rest = text;
    let mut number = 2usize;
    while !rest.is_empty() {
        let (line, after) = first_line(rest);
        reader.read_line(alloc, number, line, after)?;
        rest = after;
        number += 1;
    }
    list_with(reader)
}

// The playlist of the lines of a text.
fn list_in(alloc: Global, text: &[u8]) -> Result<Playlist, ListFault>
    requires { length text.now ≤ MAX_PLAYLIST }
    ensures { ReadsList result (list_in (lines_of text.now)) }
{
    if text.is_empty() {
        return Err(ListFault::NoHeader);
    }
    let (line, rest) = first_line(text);
    if line != b"#EXTM3U".as_slice() {
        return Err(ListFault::NoHeader);
    }
    list_behind(alloc, rest)
}

/// Reads a media playlist. Of its faults the first is told: that of the text, then that of the first line with
/// one, then that there is no target duration.
#[tactic(auto, using(crate::proofs::Texts::list_of_long, crate::proofs::Texts::list_of_bad, crate::proofs::Texts::list_of_text))]
pub fn read_playlist(alloc: Global, text: &[u8]) -> Result<Playlist, ListFault>
    ensures { ReadsList result (list_of text.now) }
{
    if text.len() > MAX_PLAYLIST {
        return Err(ListFault::TooLong);
    }
    match from_utf8(text) {
        Ok(_) => list_in(alloc, text),
        Err(e) => Err(ListFault::NotUtf8 {
            at: e.valid_up_to(),
        }),
    }
}
