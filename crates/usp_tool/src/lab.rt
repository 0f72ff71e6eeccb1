//! The commands `lab` and `lab-from`: run a script of grants and requests over several edges in memory.
mod command;
mod run;
mod summary;
#[cfg(test)]
mod tests;
mod words;

pub use command::run_lab;
pub use summary::run_lab_from;
pub use words::{groups_of, workers_of};
