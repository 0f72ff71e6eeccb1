//! The real files, input and output, clock, objects and connections. They count their faults. To a command they tell
//! nothing of what they hold, and a clause of each call of input and output says what passes to or from a reader or
//! a writer that tells its bytes.
mod clock;
mod door;
mod files;
mod line;
mod link;
mod names;
mod objects;
mod patience;
mod streams;
#[cfg(test)]
mod tests;

pub use clock::SystemClock;
pub use door::TcpDoor;
pub use files::Folder;
pub use line::TcpLine;
pub use link::TcpLink;
pub use objects::FolderObjects;
pub use streams::{Incoming, Outgoing};
