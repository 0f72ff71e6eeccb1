//! The commands of `usp` (RFC 9246): `check` judges requests, one a line, `sign` makes signed URIs, `edge` serves
//! objects on threads, `play` plays a playlist, and `lab` runs a script over edges in memory.
#![tactic(auto)]

mod check;
mod counts;
pub mod edge;
mod input;
mod job;
pub mod lab;
mod laws;
mod limits;
mod memory;
mod output;
pub mod play;
pub mod run;
mod sign;
#[cfg(test)]
mod tests;
mod words;

pub use laws::{
    limits_agree, limits_are_told, lines_in_their_grammar_are_answered, one_outcome, signed_passes,
};
pub use limits::{MAX_CONNECTIONS, MAX_INPUT, MAX_LINE, MAX_WORKERS};
