//! What is kept of a run for its text.

use usp_base::Rows;
use usp_edge::Verdict;
use usp_nonce::Turned;
use usp_script::Label;
use usp_trace::Ledger;

/// What is kept of an ask.
#[derive(Clone, Copy)]
pub struct AskReport {
    /// The place of its edge.
    pub edge: u32,
    pub verdict: Verdict,
    /// The status of the reply.
    pub status: u16,
    /// What the nonce call answered, where there was one.
    pub call: Option<Turned>,
    /// The first place of the token that it brought, in the ledger as its round began.
    pub origin: Option<u32>,
}

/// What is kept of a run.
#[derive(Drop)]
pub struct Report {
    /// The asks, in order.
    pub asks: Rows<AskReport>,
    pub ledger: Ledger,
    /// The label of each token of the ledger.
    pub labels: Rows<Label>,
    /// How many nonce calls were made at each edge.
    pub calls: Rows<u64>,
}
