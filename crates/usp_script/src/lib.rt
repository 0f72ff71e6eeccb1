//! Scripts of the lab: which edges there are, what is granted, and which requests are made of whom. A script is read
//! from lines, or made of a number.
#![tactic(auto)]

mod ask;
mod draft;
mod fault;
mod generator;
mod known;
mod limits;
mod memory;
mod reading;
mod script;
#[cfg(test)]
mod tests;

pub use ask::{Carried, LabAsk, LabObject, Label, Round};
pub use fault::ScriptFault;
pub use generator::generated;
pub use limits::{MAX_ASKS, MAX_EDGES, MAX_GROUPS, limits_are_told};
pub use memory::NoMemory;
pub use reading::read_script;
pub use script::Script;
