//! The limits of an input.

/// The most bytes of an input. A limit of this project.
pub const MAX_INPUT: usize = 16_777_216;

/// The most bytes of a line of the input, its end not counted. A limit of this project.
pub const MAX_LINE: usize = 32_768;

/// The most workers of an edge. A limit of this project.
pub const MAX_WORKERS: usize = 16;

/// The most connections that a worker serves. A limit of this project.
pub const MAX_CONNECTIONS: u64 = 100_000;
