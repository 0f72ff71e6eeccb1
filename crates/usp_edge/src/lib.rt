//! One connection served: for the bytes that it brought, the moments of its clock, the turns of its nonce table and
//! the answers of its objects, the bytes written, the notes and the end are those of one definition.
//!
//! ```
//! let mut nonces = NonceTable::with_room(alloc, conf.room())?;
//! let mut journal = Vec::new(alloc);
//! let edge = Edge { alloc, kit: &kit, conf: &conf };
//! let end = serve_connection(&edge, &mut wire, &mut nonces, &mut clock, &mut objects, &mut journal);
//! ```
#![tactic(auto)]

mod answer;
mod asks;
mod calling;
mod connection;
mod edge;
mod end;
mod issuing;
mod judgement;
mod laws;
mod limits;
mod memory;
mod nonces;
mod note;
mod noting;
mod objects;
mod prepared;
mod replies;
mod request;
mod seated;
#[cfg(test)]
mod tests;
mod work;

pub use connection::serve_connection;
pub use edge::Edge;
pub use end::End;
pub use laws::{has_one_outcome, limits_its_calls, notes_honestly, notes_its_calls};
pub use limits::{MAX_HEADS, limits_are_told};
pub use nonces::Nonces;
pub use note::{Note, Verdict};
pub use seated::Seated;
