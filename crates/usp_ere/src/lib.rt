//! POSIX extended regular expressions (POSIX, Base Definitions, section 9.4) over bytes.
//!
//! A match is any part of the text, and takes at most `(length of the text + 1) * size` steps. What the standard leaves
//! undefined is refused with its place, but for a `\` before a character that is not special: where that is no letter
//! or digit, it stands for itself.
//!
//! ```
//! let ere = compile(alloc, b"^https://[ab][.]example/")?;
//! let mut room = scratch(alloc, &ere)?;
//! let mut steps = Steps::<L>::new(blank);
//! assert!(rt; ere.is_match(b"https://a.example/v", &mut room, &mut steps));
//! ```
#![tactic(auto)]

mod alone;
mod bytes;
mod class;
mod compiler;
mod counts;
mod course;
mod elements;
mod emit;
mod ere;
mod fault;
mod front;
mod laws;
mod limits;
mod line;
mod node_set;
mod nodes;
mod parse;
mod place;
mod plan;
mod program;
mod reader;
mod room;
mod set;
mod size;
mod start;
mod tokens;
mod tree;
mod walk;

pub use compiler::{NoMemory, compile, no_other_fault, one_expression, scratch};

#[cfg(test)]
mod tests;

pub use ere::Ere;
pub use fault::EreFault;
pub use laws::limits_are_told;
pub use limits::{MAX_COUNT, MAX_SIZE};
pub use room::Scratch;
