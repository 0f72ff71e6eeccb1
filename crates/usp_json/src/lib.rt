//! JSON objects (RFC 8259), read strictly and written in one canonical way.
//!
//! `read_members` takes any spelling within the limits, `write_members` writes the canonical one: no white space
//! outside texts, numbers as they were spelled, and in texts only what must be escaped.
//!
//! ```rust
//! let members = read_members(alloc, b"{ \"exp\" : 1500, \"iss\" : \"\\u0061\" }")?;
//! assert!(rt; members.find(b"iss").is_some());
//! let text = write_members(alloc, &members)?;
//! assert!(rt; text.as_slice() == b"{\"exp\":1500,\"iss\":\"a\"}");
//! ```
#![tactic(auto)]

mod copy;
mod count;
mod fault;
mod frame;
mod laws;
mod limits;
mod members;
mod memory;
mod number;
mod pieces;
mod read;
mod states;
mod steps;
#[cfg(test)]
mod tests;
mod text;
mod value;
mod write;

pub use count::canonical_len;
pub use fault::JsonFault;
pub use laws::{
    changes_keep_the_limits, keeps_unescaped_texts, leaves_room_for_a_member_more, limits_are_told,
    reads_back_within_any_limits, reads_bytes, reads_keep_the_limits, reads_once,
};
pub use limits::{MAX_LEVELS, MAX_MEMBERS};
pub use memory::NoMemory;
pub use number::NumText;
pub use read::read_members;
pub use text::Text;
pub use value::{Items, Json, Members};
pub use write::{write_json, write_members};
