//! URIs of the schemes `http` and `https`, and their normal form by RFC 3986.
//!
//! `read_uri` gives the normal form of a text, or its first fault, and `check_uri` the fault alone.
//! `Place` is a scheme and an authority, to which `moved` takes a URI. The classes of bytes and the
//! cuts serve whoever reads a text that need not be a URI.
//!
//! ```
//! let uri = read_uri(alloc, b"HTTP://Example.com:80/%7ea/./b/../c?x")?;
//! // uri.text() is b"http://example.com/~a/c?x", uri.path() is b"/~a/c"
//! let place = Place::new(alloc, b"https", b"CDN.example:8443")?;
//! let moved = moved(alloc, &uri, &place)?;
//! // moved.text() is b"https://cdn.example:8443/~a/c?x"
//! ```
#![tactic(auto)]

mod checks;
mod component_slices;
mod delimited;
mod fault;
mod laws;
mod lengths;
mod letters;
mod limits;
mod reading;
mod segments;
mod uri;
mod writing;

pub use delimited::{cut_at_hash, cut_at_slash, cut_authority, cut_path};
pub use fault::{NoMemory, UriFault};
pub use laws::{
    a_longer_query_stays_normal, dot_segments_are_removed_in_one_way,
    removes_dot_segments_by_the_standard,
};
pub use letters::{is_gen_delim, is_sub_delim};
pub use limits::{MAX_LEN, limits_are_told};
pub use uri::{Place, Uri, check_uri, moved, read_uri, request_uri};

#[cfg(test)]
mod tests;
