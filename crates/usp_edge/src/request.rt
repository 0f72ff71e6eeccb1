//! A request, and what it is answered by.

use std::alloc::Global;
use usp_conf::Conf;
use usp_ext::Kit;
use usp_http::Head;

/// One head on a connection, with what it is worked by.
#[derive(Clone, Copy)]
pub(crate) struct Request<'a> {
    pub alloc: Global,
    pub kit: &'a Kit,
    pub conf: &'a Conf,
    pub head: &'a Head,
    /// The connection ends behind the reply.
    pub last: bool,
}
