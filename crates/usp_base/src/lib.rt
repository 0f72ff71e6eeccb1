//! What the program meets outside itself, as traits, with forms in memory.
#![tactic(auto)]

mod blanks;
mod clock;
mod cuts;
mod door;
mod failures;
mod fault;
mod files;
mod limits;
mod lines;
mod link;
mod numbers;
mod objects;
mod octets;
mod pieces;
mod rows;
mod sink;
mod source;
mod steps;
#[cfg(test)]
mod tests;
mod wire;

pub use blanks::trim_blanks;
pub use clock::{Clock, ListedClock, SteadyClock};
pub use cuts::{after_prefix, cut_at, without_end};
pub use door::{Door, ListedDoor, SteadyDoor};
pub use failures::Failures;
pub use fault::{Failed, LoadFault, Status};
pub use files::{Files, ListedFiles, MemoryFile, SteadyFiles};
pub use limits::{LONGEST_ANSWER, MOMENT_BOUND, limits_are_told};
pub use lines::first_line;
pub use link::{Asked, Link, ListedLink, SteadyLink};
pub use numbers::{is_digit, read_number};
pub use objects::{ListedObjects, Objects, SteadyObjects};
pub use octets::Octets;
pub use rows::Rows;
pub use sink::{ListedSink, Sink, SteadySink};
pub use source::{ListedSource, Source, SteadySource};
pub use steps::Steps;
pub use wire::{ListedWire, SteadyWire, Wire};
