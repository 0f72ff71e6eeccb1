//! A player of media playlists (RFC 8216): playlists, the addresses of the hosts that it asks, and playing over a
//! link.
//!
//! ```
//! let list = read_playlist(alloc, b"#EXTM3U\n#EXT-X-TARGETDURATION:6\n#EXTINF:5.96,\ns1.ts\n")?;
//! // list.target is 6, and list.segments has one of 5.96 seconds at s1.ts
//!
//! let map = read_map(alloc, b"a.example 127.0.0.1:8080\n")?;
//! let address = map.address_of(b"a.example"); // Some(b"127.0.0.1:8080")
//!
//! match play(alloc, &mut link, &map, b"http://a.example/v/list.m3u8") {
//!     Ok(transcript) => {} // transcript.steps() are the requests that were answered
//!     Err((transcript, fault)) => {} // fault says why the player stopped behind these steps
//! }
//! ```
#![tactic(auto)]

mod fault;
mod laws;
mod limits;
mod line;
mod list;
mod map;
mod player;
mod playlist;
mod reader;
mod request;
#[cfg(test)]
mod tests;
mod transcript;

pub use fault::{ListFault, MapFault, PlayFault};
pub use laws::has_one_outcome;
pub use limits::{MAX_PLAYLIST, MAX_REDIRECTIONS, MAX_SEGMENTS, MAX_TARGET, limits_are_told};
pub use list::read_playlist;
pub use map::{AddressMap, Place, read_map};
pub use player::play;
pub use playlist::{Playlist, Segment};
pub use transcript::{Step, Transcript};
