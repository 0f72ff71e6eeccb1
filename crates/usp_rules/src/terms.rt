//! What a request is judged on beside itself.
use crate::Profile;
use std::alloc::Global;
use usp_ext::Kit;

/// What each rule may need beside the request.
#[derive(Clone, Copy)]
pub struct Terms<'a> {
    pub alloc: Global,
    pub kit: &'a Kit,
    pub profile: &'a Profile,
    /// In seconds since 1970.
    pub moment: u64,
}
