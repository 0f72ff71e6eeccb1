//! What a lab prints of a run: a line for each ask, and one for each edge.
ghost use Rattle.std.specs.Prelude.{◌≡◌, ℕ, length, IfOk};
ghost use Rattle.usp_lab.specs.Entries.{Run};
ghost use Rattle.usp_lab.specs.LabText.{IsLabText};
ghost use Rattle.usp_lab.specs.Reports.{IsReport};
ghost use Rattle.usp_lab.specs.Telling.{IsWhole, TellsReport};
ghost use Rattle.usp_lab.specs.Turns.{IsRun};

mod chains;
mod lines;
mod links;
#[cfg(test)]
mod tests;
mod window;

use self::chains::Trail;
use self::lines::{Page, push_asks, push_edges};
use self::links::links_of;
use crate::{NoMemory, Report};
use std::alloc::Global;
use usp_conf::Conf;
use usp_script::Script;

// The text of a report over these edges.
fn report_text<'a>(
    alloc: Global,
    edges: &'a [Conf],
    report: &'a Report,
) -> Result<Vec<u8>, NoMemory>
    requires { IsWhole (length edges.now) report.now }
    ensures { IfOk result (λ text. TellsReport edges.now report.now text.items) }
{
    let links = links_of(alloc, report)?;
    let trail = Trail {
        ledger: &report.ledger,
        links: &links,
    };
    let mut text = Vec::new(alloc);
    push_asks(alloc, &mut text, &Page { edges, trail }, report.asks.rows())?;
    push_edges(alloc, &mut text, edges, report.calls.rows())?;
    Ok(text)
}

/// The text of a run of the script, from its report. An ask that was admitted shows the chain of the token that it
/// brought, from the grant on, each token by its label and, in brackets, the moments from which and until which it
/// holds.
///
/// ```text
/// 1 a admitted 200 nonce 0 at 1000 chain g1[900-2000]
/// 2 a admitted 200 nonce 1 at 1010 chain g1[900-2000]>i1[900-1030]
/// 3 b denied 17 Seen nonce 0 at 1031
/// edge a calls 2
/// edge b calls 1
/// ```
pub fn text_of(alloc: Global, script: &Script, report: &Report) -> Result<Vec<u8>, NoMemory>
    requires { (workers : ℕ) × (run : Run) × IsRun script.now workers run
        × IsReport (length script.now.edges) run report.now }
    ensures { IfOk result (λ text. (workers : ℕ) (run : Run) → IsRun script.now workers run
        → IsReport (length script.now.edges) run report.now
        → IsLabText script.now.edges run text.items) }
{
    report_text(alloc, script.edges(), report)
}
