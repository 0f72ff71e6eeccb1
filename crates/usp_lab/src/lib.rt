//! A lab: the asks of a script, each served over a connection in memory, by one to sixteen workers a round, and the
//! ledger of what was granted and issued.
#![tactic(auto)]

mod asking;
mod bench;
mod clock;
mod head;
mod laws;
mod limits;
mod memory;
mod named;
mod numbers;
mod objects;
mod report;
mod round;
mod running;
mod summary;
mod table;
mod text;

pub use bench::{Bench, Calm, KeptBench, PlainBench};
pub use head::head_of;
pub use laws::{
    asks_by_whole_heads, brings_its_token, decides_each_ask, goes_in_order_with_one_worker,
    has_a_line_for_each_ask, has_claims_along_the_chain, names_one_chain, names_the_chain_shown,
    notes_what_was_asked, says_one_thing, traces_to_grants, upholds_each_history,
};
pub use limits::{MAX_WORKERS, limits_are_told};
pub use memory::NoMemory;
pub use report::{AskReport, Report};
pub use running::{Lab, run_script};
pub use summary::{has_denial, summary_of};
pub use text::text_of;
