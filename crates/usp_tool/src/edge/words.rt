//! What the words of `edge` say.
ghost use Rattle.std.specs.Prelude.{◌≤◌};
ghost use Rattle.usp_tool.specs.declared.limits.TheConstants.{MAX_CONNECTIONS, MAX_WORKERS};

/// What the words of `edge` say.
#[derive(Drop)]
pub struct EdgeWords<'a> {
    /// The name of the configuration.
    pub conf: &'a str,
    /// Where connections come from: the address of the machine, and the port.
    pub address: &'a str,
    /// How many connections are served at a time, 1 to [`MAX_WORKERS`].
    pub workers: u64,
    /// How many connections each worker serves at most, 1 to [`MAX_CONNECTIONS`].
    pub connections: u64,
    /// Where the objects stand.
    pub folder: &'a str,
    ghost some: { (1 ≤ workers) × (1 ≤ connections) },
    ghost most: { (workers ≤ MAX_WORKERS) × (connections ≤ MAX_CONNECTIONS) },
}
