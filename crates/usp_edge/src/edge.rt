//! What an edge serves by.

use std::alloc::Global;
use usp_conf::Conf;
use usp_ext::Kit;

/// What an edge serves its connections by, beside what it meets on them.
#[derive(Clone, Copy)]
pub struct Edge<'a> {
    pub alloc: Global,
    /// The tests of claims that a configuration may name.
    pub kit: &'a Kit,
    pub conf: &'a Conf,
}
