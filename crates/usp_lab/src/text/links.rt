//! What is shown of each token of a ledger.
ghost use Rattle.std.specs.Prelude.{◌≡◌, length, IfOk};
ghost use Rattle.usp_lab.specs.Links.{AreLinksOf};

use super::window::{Window, window_of};
use crate::{NoMemory, Report};
use std::alloc::Global;
use usp_script::Label;

/// What is shown of a token of a ledger.
#[derive(Clone, Copy)]
pub struct Link {
    pub label: Label,
    pub window: Window,
}

/// The links of a report, one for each token of its ledger, whose claims are read but once.
#[tactic(auto, using(crate::proofs::Linking::more_links))]
pub fn links_of(alloc: Global, report: &Report) -> Result<Vec<Link>, NoMemory>
    requires { length report.now.labels ≡ length report.now.ledger }
    ensures count { IfOk result (λ links. length links.items ≡ length report.now.ledger) }
    ensures each { IfOk result (λ links.
        AreLinksOf report.now.labels report.now.ledger links.items) }
{
    let labels = report.labels.rows();
    let mut links = Vec::new(alloc);
    'places: for place in 0..report.ledger.len() {
        let token = report.ledger.issue(place).token();
        let window = window_of(alloc, token.text())?;
        let label = labels[place as usize];
        links.push(Link { label, window })?;
    }
    Ok(links)
}
