//! What is known of a worker's connections.

use usp_edge::End;

/// One served connection.
#[derive(Clone, Copy, Debug, PartialEq, Eq)]
pub struct Visit {
    /// How many notes it left.
    pub notes: u64,
    pub end: End,
}

/// How the work at a door ends.
#[derive(Clone, Copy, Debug, PartialEq, Eq)]
pub enum DoorEnd {
    /// No more connections come.
    Ended,
    /// As many connections as were wanted were served.
    Most,
    /// The door failed.
    DoorFault,
    /// There was no memory for one more visit. Each connection that the door gave was served and given back.
    NoMemory,
}
