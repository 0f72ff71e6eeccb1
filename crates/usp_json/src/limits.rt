//! How deep and how wide an object may be.

/// The most levels: arrays and objects in each other, with the outermost object. A limit of this project, as RFC 8259
/// section 9 allows one.
pub const MAX_LEVELS: usize = 16;

/// The most members of an object. A limit of this project, as RFC 8259 section 9 allows one.
pub const MAX_MEMBERS: usize = 64;
