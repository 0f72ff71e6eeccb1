//! `edge`: the work at one door, edges of two workers, and the command through `run`.
mod doors;
mod edges;
mod runs;
