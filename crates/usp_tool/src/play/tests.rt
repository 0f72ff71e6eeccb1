//! `play` through `run`: over answers in memory, and through two edges that serve.
mod realistic;
mod runs;
