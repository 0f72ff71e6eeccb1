//! The limits of an expression.

/// The most nodes of an expression, the one that accepts among them (of this project).
pub const MAX_SIZE: usize = 4000;

/// The most that a count of a repeat is: POSIX asks that at least this is allowed (Base Definitions, section 9.4.6).
pub const MAX_COUNT: u16 = 255;
