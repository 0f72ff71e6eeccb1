//! What one worker of a round has in hand.

use std::collections::VecDeque;
use usp_edge::Note;
use usp_shared::Seat;

/// An ask that is to be served: its place in the round, and its line.
#[derive(Drop)]
pub(crate) struct Job<L> {
    pub place: usize,
    pub line: L,
}

/// An ask that was served.
#[derive(Drop)]
pub(crate) struct Done<L> {
    pub line: L,
    pub note: Note,
}

/// The part of a round that one worker serves, and what came of it.
#[derive(Drop)]
pub(crate) struct Share<L> {
    /// The asks that are to be served, in order.
    pub jobs: VecDeque<Job<L>>,
    /// Those that were served, in order.
    pub done: VecDeque<Done<L>>,
    /// One for each edge, at its place.
    pub seats: Vec<Seat>,
    /// Whether all asks were served. Where they were not, there was no memory.
    pub whole: bool,
}
