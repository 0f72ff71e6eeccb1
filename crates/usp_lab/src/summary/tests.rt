//! The summary line, and denials.
use super::{Counts, admitted_in, counts_text, denied_in, has_denied};
use crate::AskReport;
use std::test::Fail;
use usp_edge::Verdict;
use usp_rules::Rule;

fn ask(verdict: Verdict) -> AskReport {
    AskReport {
        edge: 0,
        verdict,
        status: 200,
        call: None,
        origin: None,
    }
}

#[test]
fn counts_on_one_line(rt: HostRuntime) -> Result<(), Fail> {
    let counts = Counts {
        groups: 1,
        asks: 10,
        admitted: 8,
        denied: 2,
        calls: 9,
        tokens: 9,
    };
    let text = counts_text(rt.alloc(), &counts)?;
    let line = b"groups 1 asks 10 admitted 8 denied 2 calls 9 ledger 9\n";
    assert_eq!(rt; text.as_slice(), line.as_slice());
    Ok(())
}

#[test]
fn tells_admitted_from_denied(rt: HostRuntime) -> Result<(), Fail> {
    let asks = [
        ask(Verdict::Admitted),
        ask(Verdict::Denied(Rule::Missing)),
        ask(Verdict::Admitted),
    ];
    assert_eq!(rt; admitted_in(&asks), 2);
    assert_eq!(rt; denied_in(&asks), 1);
    assert!(rt; has_denied(&asks));
    assert!(rt; !has_denied(&asks[..1]));
    Ok(())
}
