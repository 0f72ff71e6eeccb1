//! The command `play`: plays a playlist through edges that renew and redirect (RFC 8216, RFC 9246 section 3).
mod command;
#[cfg(test)]
mod tests;
mod text;
mod words;

pub use command::run_play;
pub use text::play_outcome;
pub use words::{PlayWords, play_of};
