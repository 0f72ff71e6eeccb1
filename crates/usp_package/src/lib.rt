//! The signed package of a URI (RFC 9246 section 2): finding it in any bytes, and putting it in.
//!
//! ```
//! let name = AttrName::new(b"token")?;
//! match find(&name, b"http://h/v?token=e.y.J&t=1") {
//!     Found::At { token, before, after } => {
//!         // b"e.y.J", b"http://h/v?" and b"t=1", which joined are the content
//!         let content = concatenate(alloc, before, after)?;
//!     }
//!     Found::Bad { at } => {} // the byte at that offset may not follow a token
//!     Found::None => {}       // the content is the text itself
//! }
//! ```
#![tactic(auto)]

mod embedding;
mod finding;
mod limits;
mod name;
mod places;

pub use embedding::{NoMemory, concatenate, embed};
pub use finding::{Found, find};
pub use limits::{MAX_NAME, limits_are_told};
pub use name::AttrName;

#[cfg(test)]
mod tests;
