//! The command `edge`: serves connections on threads that share one nonce table.
mod command;
mod laws;
mod parsing;
mod seats;
mod serve;
mod serving;
mod sharing;
#[cfg(test)]
mod tests;
mod text;
mod upholding;
mod visit;
mod words;
mod worker;

pub use command::{Crew, run_edge};
pub use laws::{counts_faults_of_ends, makes_the_calls_of_its_notes, serves_whole_sessions};
pub use parsing::{edge_of, edge_words};
pub use serve::{Log, Service, serve_door};
pub use serving::serve_edge;
pub use text::text_of_edge;
pub use upholding::upholds_one_history;
pub use visit::{DoorEnd, Visit};
pub use words::EdgeWords;
pub use worker::{Shift, Worker, clear_shifts};
