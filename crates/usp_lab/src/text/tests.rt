//! The texts of reports made by hand.
ghost use Rattle.std.specs.Prelude.{IsTrue, length};
ghost use Rattle.usp_lab.specs.Telling.{IsAmong, IsWhole};

use super::report_text;
use crate::{AskReport, NoMemory, Report};
use std::alloc::Global;
use std::process::Abort;
use std::test::Fail;
use usp_base::Rows;
use usp_conf::{Conf, read_conf};
use usp_edge::Verdict;
use usp_jws::{Token, split};
use usp_nonce::{Answer, Turned};
use usp_rules::Rule;
use usp_script::Label;
use usp_trace::{Issue, Ledger, MAX_ISSUES};
use usp_uri::read_uri;

const G1: &[u8] = b"e30.eyJleHAiOjIwMDAsIm5iZiI6OTAwLCJjZG5pdWMiOiJoYXNoOngifQ.AA";

const I1: &[u8] = b"e30.eyJleHAiOjEwMzAsIm5iZiI6OTAwLCJjZG5pdWMiOiJoYXNoOngifQ.AQ";

const I2: &[u8] = b"e30.eyJleHAiOjEwNDAsIm5iZiI6OTAwLCJjZG5pdWMiOiJoYXNoOngifQ.Ag";

const I3: &[u8] = b"e30.eyJleHAiOjEwNTAsIm5iZiI6OTAwLCJjZG5pdWMiOiJoYXNoOngifQ.Aw";

const I4: &[u8] = b"e30.eyJleHAiOjEwNDAsIm5iZiI6OTAwLCJjZG5pdWMiOiJoYXNoOngifQ.BA";

const I5: &[u8] = b"e30.eyJleHAiOjEwNjAsIm5iZiI6OTAwLCJjZG5pdWMiOiJoYXNoOngifQ.BQ";

const G2: &[u8] = b"e30.eyJjZG5pdWMiOiJoYXNoOngifQ.Bg";

const I6: &[u8] = b"e30.eyJleHAiOjEwNzAsImNkbml1YyI6Imhhc2g6eCJ9.Bw";

const I7: &[u8] = b"e30.eyJuYmYiOjUsImNkbml1YyI6Imhhc2g6eCJ9.CA";

const EDGE_A: &[u8] = b"{
  \"edge\": \"a\",
  \"scheme\": \"https\",
  \"keys\": [
    {\"kid\": \"k\", \"issuer\": \"cp\", \"secret\": \"AQEBAQEBAQEBAQEBAQEBAQEBAQEBAQEBAQEBAQEBAQE\"}
  ],
  \"issuers\": [\"cp\"],
  \"audience\": [\"a\"],
  \"sign_kid\": \"k\"
}";

const EDGE_B: &[u8] = b"{
  \"edge\": \"b\",
  \"scheme\": \"https\",
  \"keys\": [
    {\"kid\": \"k\", \"issuer\": \"cp\", \"secret\": \"AQEBAQEBAQEBAQEBAQEBAQEBAQEBAQEBAQEBAQEBAQE\"}
  ],
  \"issuers\": [\"cp\"],
  \"audience\": [\"b\"],
  \"sign_kid\": \"k\"
}";

fn conf_of(alloc: Global, text: &[u8]) -> Result<Conf, Fail> {
    match read_conf(alloc, text) {
        Ok(conf) => Ok(conf),
        Err(_) => Err(Fail::new("a configuration")),
    }
}

fn edges_of(alloc: Global) -> Result<Vec<Conf>, Fail> {
    let mut edges = Vec::new(alloc);
    edges.push(conf_of(alloc, EDGE_A)?)?;
    edges.push(conf_of(alloc, EDGE_B)?)?;
    Ok(edges)
}

/// What enters a ledger: a token and its label, and where it was renewed the token that was used.
#[derive(Clone, Copy)]
struct Entered<'a> {
    label: Label,
    token: &'a [u8],
    used: Option<&'a [u8]>,
}

fn granted(number: u32, token: &[u8]) -> Entered<'_> {
    Entered {
        label: Label::Granted(number),
        token,
        used: None,
    }
}

fn renewed<'a>(number: u32, used: &'a [u8], token: &'a [u8]) -> Entered<'a> {
    Entered {
        label: Label::Issued(number),
        token,
        used: Some(used),
    }
}

/// Appends a token to a ledger. Nothing is appended for a use of a token that is not there.
fn enter(
    rt: &impl Abort,
    alloc: Global,
    ledger: &mut Ledger,
    row: &Entered<'_>,
) -> Result<(), Fail> {
    assert!(rt; ledger.len() < MAX_ISSUES);
    let token = Token::of(alloc, &split(row.token)?)?;
    let Some(used) = row.used else {
        let _ = ledger.append(Issue::Grant { token });
        return Ok(());
    };
    let Some(parent) = ledger.first_place(used) else {
        return Ok(());
    };
    let Ok(uri) = read_uri(alloc, b"https://a.example/v/s1.ts") else {
        return Err(Fail::new("a URI"));
    };
    let _ = ledger.append(Issue::Renewed {
        parent,
        edge: 0,
        uri,
        moment: 1000,
        token,
    });
    Ok(())
}

fn admitted(edge: u32, status: u16, call: Option<Turned>, origin: Option<u32>) -> AskReport {
    AskReport {
        edge,
        verdict: Verdict::Admitted,
        status,
        call,
        origin,
    }
}

fn turned(place: u64, moment: u64) -> Option<Turned> {
    Some(Turned {
        place,
        moment,
        answer: Answer::Taken,
    })
}

fn report_of(
    rt: &impl Abort,
    alloc: Global,
    entered: &[Entered<'_>],
    asks: &[AskReport],
    calls: &[u64],
) -> Result<Report, Fail> {
    let mut ledger = Ledger::empty(alloc);
    let mut labels = Vec::new(alloc);
    for row in entered {
        enter(rt, alloc, &mut ledger, row)?;
        labels.push(row.label)?;
    }
    Ok(Report {
        asks: Rows::of(asks.to_vec(alloc)?),
        ledger,
        labels: Rows::of(labels),
        calls: Rows::of(calls.to_vec(alloc)?),
    })
}

fn is_among(edges: usize, tokens: u32, ask: &AskReport) -> bool
    ensures { IsTrue result → IsAmong edges tokens ask.now }
{
    let within = match ask.origin {
        Some(place) => place < tokens,
        None => true,
    };
    within && (ask.edge as usize) < edges
}

fn is_whole(edges: usize, report: &Report) -> bool
    ensures { IsTrue result → IsWhole edges report.now }
{
    let tokens = report.ledger.len();
    'asks: for ask in report.asks.rows() {
        if !is_among(edges, tokens, ask) {
            return false;
        }
    }
    report.labels.rows().len() == tokens as usize && report.calls.rows().len() == edges
}

fn text_for(rt: &impl Abort, alloc: Global, report: &Report) -> Result<Vec<u8>, Fail> {
    let edges = edges_of(alloc)?;
    if !is_whole(edges.len(), report) {
        return Err(Fail::new("a whole report"));
    }
    Ok(report_text(alloc, &edges, report)?)
}

#[test]
fn shows_each_chain_from_its_grant(rt: HostRuntime) -> Result<(), Fail> {
    let alloc = rt.alloc();
    let entered = [
        granted(1, G1),
        renewed(1, G1, I1),
        renewed(2, I1, I2),
        renewed(3, I2, I3),
        renewed(4, I2, I4),
        renewed(5, I4, I5),
    ];
    let seen = AskReport {
        edge: 1,
        verdict: Verdict::Denied(Rule::Seen),
        status: 403,
        call: turned(1, 1031),
        origin: Some(4),
    };
    let asks = [
        admitted(0, 200, turned(0, 1000), Some(0)),
        admitted(0, 200, turned(1, 1010), Some(1)),
        admitted(0, 200, turned(2, 1020), Some(2)),
        admitted(0, 302, turned(3, 1025), Some(2)),
        admitted(1, 200, turned(0, 1030), Some(4)),
        seen,
        admitted(0, 200, None, None),
    ];
    let report = report_of(&rt, alloc, &entered, &asks, &[4, 2])?;
    let text = text_for(&rt, alloc, &report)?;
    let shown = b"1 a admitted 200 nonce 0 at 1000 chain g1[900-2000]
2 a admitted 200 nonce 1 at 1010 chain g1[900-2000]>i1[900-1030]
3 a admitted 200 nonce 2 at 1020 chain g1[900-2000]>i1[900-1030]>i2[900-1040]
4 a admitted 302 nonce 3 at 1025 chain g1[900-2000]>i1[900-1030]>i2[900-1040]
5 b admitted 200 nonce 0 at 1030 chain g1[900-2000]>i1[900-1030]>i2[900-1040]>i4[900-1040]
6 b denied 17 Seen nonce 1 at 1031
7 a admitted 200 chain untraced
edge a calls 4
edge b calls 2
";
    assert_eq!(rt; text.as_slice(), shown.as_slice());
    Ok(())
}

#[test]
fn shows_a_star_for_a_bound_that_is_absent(rt: HostRuntime) -> Result<(), Fail> {
    let alloc = rt.alloc();
    let entered = [granted(12, G2), renewed(345, G2, I6), renewed(1000, I6, I7)];
    let asks = [admitted(0, 404, None, Some(2))];
    let report = report_of(&rt, alloc, &entered, &asks, &[0, 0])?;
    let text = text_for(&rt, alloc, &report)?;
    let shown = b"1 a admitted 404 chain g12[*-*]>i345[*-1070]>i1000[5-*]
edge a calls 0
edge b calls 0
";
    assert_eq!(rt; text.as_slice(), shown.as_slice());
    Ok(())
}
