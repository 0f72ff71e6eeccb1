//! One nonce table for many threads. They take turns at it, and each call stands once, at the place that it is
//! told, in one legal history.
#![tactic(auto)]

mod laws;
mod plays;
mod rule;
mod seat;
mod shared;
#[cfg(test)]
mod tests;
mod turn;
mod waiting;

pub use laws::keeps_each_call_at_its_place;
pub use seat::Seat;
pub use shared::{NoMemory, SharedNonces};
pub use turn::NonceAsk;
