//! Heads of requests as they come over a connection, however that cuts them, and replies: their text, and what a player
//! hears in one.
//!
//! A head is one of the grammar of RFC 9112 as `httparse` reads it: it takes LF for CR LF, and empty lines before
//! the first line.
#![tactic(auto)]

mod buffer;
mod digits;
mod fields;
mod front;
mod head;
mod heard;
mod laws;
mod limits;
mod next;
mod pause;
mod reader;
mod reply;
mod room;
mod scan;
#[cfg(test)]
mod tests;

pub use digits::{are_digits, read_digits};
pub use head::{Head, Method, NoMemory};
pub use heard::{Heard, HeardFault, read_reply};
pub use laws::finds_the_same_however_cut;
pub use limits::{MAX_FIELDS, MAX_HEAD, limits_are_told};
pub use next::{HeadFault, Next};
pub use reader::HeadReader;
pub use reply::{Field, Reply, reply_bytes};
