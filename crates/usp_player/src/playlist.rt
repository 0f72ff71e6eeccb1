//! Media playlists (RFC 8216, section 4).
use usp_base::{Octets, Rows};

/// A segment of a playlist.
#[derive(Drop, Debug)]
pub struct Segment {
    /// In seconds, as it is spelled: digits, with or without a fraction.
    pub duration: Octets,
    /// As it is spelled: relative to the URI of the playlist, or absolute.
    pub uri: Octets,
}

/// A playlist.
#[derive(Drop, Debug)]
pub struct Playlist {
    /// The target duration in seconds.
    pub target: u64,
    pub segments: Rows<Segment>,
    /// It has the end tag, so that no segment will be added.
    pub ended: bool,
}
