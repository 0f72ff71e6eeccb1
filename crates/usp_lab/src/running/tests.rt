//! Runs of scripts.
ghost use Rattle.std.specs.Prelude.{◌≤◌};

use super::{Lab, run_script};
use crate::{AskReport, KeptBench, Report};
use std::alloc::Global;
use std::sync::Wait;
use std::test::Fail;
use std::thread::Threads;
use usp_base::{MemoryFile, Octets, SteadyFiles};
use usp_edge::Verdict;
use usp_ext::{Kit, equals, is_any, is_at_most, is_one_of, is_path_prefix};
use usp_rules::Rule;
use usp_script::{Label, read_script};

// The configurations of two edges. The first sends requests on to the second.
const A: &str =
    "{\"edge\":\"a\",\"scheme\":\"https\",\"keys\":[{\"kid\":\"kp\",\"issuer\":\"cp\",\"secret\":\
    \"AQEBAQEBAQEBAQEBAQEBAQEBAQEBAQEBAQEBAQEBAQE\"},{\"kid\":\"ka\",\"issuer\":\"cdn-a\",\"secret\":\
    \"AgICAgICAgICAgICAgICAgICAgICAgICAgICAgICAgI\"}],\"issuers\":[\"cp\",\"cdn-a\"],\"audience\":\
    [\"cdn-a\"],\"sign_kid\":\"ka\",\"routes\":[{\"prefix\":\"/b/\",\"scheme\":\"https\",\"authority\":\
    \"b.example\",\"kid\":\"kab\",\"issuer\":\"cdn-a\",\"secret\":\
    \"AwMDAwMDAwMDAwMDAwMDAwMDAwMDAwMDAwMDAwMDAwM\",\"audience\":\"cdn-b\"}]}";

const B: &str =
    "{\"edge\":\"b\",\"scheme\":\"https\",\"keys\":[{\"kid\":\"kab\",\"issuer\":\"cdn-a\",\"secret\":\
    \"AwMDAwMDAwMDAwMDAwMDAwMDAwMDAwMDAwMDAwMDAwM\"},{\"kid\":\"kb\",\"issuer\":\"cdn-b\",\"secret\":\
    \"BAQEBAQEBAQEBAQEBAQEBAQEBAQEBAQEBAQEBAQEBAQ\"}],\"issuers\":[\"cdn-a\",\"cdn-b\"],\"audience\":\
    [\"cdn-b\"],\"sign_kid\":\"kb\"}";

const HEAD: &str = "edge a.json
edge b.json
object a https://a.example/v/1/list.m3u8 list
object a https://a.example/v/1/s1.ts one
object a https://a.example/v/1/s1.ts another
object a https://a.example/v/1/s2.ts two
object b https://b.example/b/s3.ts three
key kp cp AQEBAQEBAQEBAQEBAQEBAQEBAQEBAQEBAQEBAQEBAQE
";

// A grant that is renewed at each use, and one token that only has no grant's claims.
const TOKENS: &str =
    "grant kp {\"iss\":\"cp\",\"aud\":\"cdn-a\",\"exp\":2000,\"nbf\":900,\"jti\":\"n1\",\"cdniets\":30,\
    \"cdnistt\":1,\"cdnistd\":2,\"cdniuc\":\"regex:^https://[^/]*/\"}
outside kp {\"exp\":2000,\"cdniuc\":\"regex:^https://a\"}
";

const WORKED: &str = "ask a 1000 https://a.example/v/1/list.m3u8 query g1
then
ask a 1010 https://a.example/v/1/s1.ts cookie i1
then
ask a 1020 https://a.example/v/1/s2.ts cookie i2
ask a 1025 https://a.example/b/s3.ts cookie i2
then
ask b 1030 https://b.example/b/s3.ts query i4
then
ask b 1031 https://b.example/b/s3.ts query i4
ask a 1040 https://a.example/v/1/s1.ts query x1
";

fn add_file(
    alloc: Global,
    files: &mut Vec<MemoryFile>,
    name: &str,
    text: &str,
) -> Result<(), Fail> {
    files.push(MemoryFile {
        name: Octets::of(name.as_bytes().to_vec(alloc)?),
        bytes: Octets::of(text.as_bytes().to_vec(alloc)?),
    })?;
    Ok(())
}

// The report of a script of these parts, and the bench that has its lines.
fn run_of<R: Threads + Wait + Sync + AllocGlobal>(
    rt: &R,
    workers: usize,
    parts: &[&str],
) -> Result<(Report, KeptBench), Fail>
    requires { (1 ≤ workers) × (workers ≤ 16) }
{
    let alloc = rt.alloc();
    let mut files = Vec::new(alloc);
    add_file(alloc, &mut files, "a.json", A)?;
    add_file(alloc, &mut files, "b.json", B)?;
    let mut files = SteadyFiles::new(alloc, files);
    let mut text = HEAD.as_bytes().to_vec(alloc)?;
    for part in parts {
        text.extend_from_slice(part.as_bytes())?;
    }
    let script = read_script(alloc, &mut files, &text)?;
    let kit = Kit::new(is_any, equals, is_one_of, is_at_most, is_path_prefix);
    let lab = Lab {
        rt,
        alloc,
        kit: &kit,
        workers,
    };
    let mut bench = KeptBench::new(alloc);
    let report = run_script(&lab, &script, &mut bench)?;
    Ok((report, bench))
}

// What a test says of an ask: whether it was admitted, the status, the place of its nonce call and that of its token.
type Told = (bool, u16, Option<u64>, Option<u32>);

fn told(ask: &AskReport) -> Told {
    let admitted = match ask.verdict {
        Verdict::Admitted => true,
        Verdict::Denied(_) => false,
    };
    let place = match ask.call {
        Some(turned) => Some(turned.place),
        None => None,
    };
    (admitted, ask.status, place, ask.origin)
}

fn tells(report: &Report, wanted: &[Told]) -> bool {
    let asks = report.asks.rows();
    if asks.len() != wanted.len() {
        return false;
    }
    for (i, ask) in asks.iter().enumerate() {
        let (admitted, status, place, origin) = told(ask);
        let of = wanted[i];
        if admitted != of.0 || status != of.1 || place != of.2 || origin != of.3 {
            return false;
        }
    }
    true
}

#[test]
fn tells_the_asks_the_ledger_and_the_calls(rt: HostRuntime) -> Result<(), Fail> {
    let (report, bench) = run_of(&rt, 1, &[TOKENS, WORKED])?;
    let wanted = [
        (true, 200, Some(0), Some(0)),
        (true, 200, Some(1), Some(1)),
        (true, 200, Some(2), Some(2)),
        (true, 302, Some(3), Some(2)),
        (true, 200, Some(0), Some(4)),
        (false, 403, Some(1), Some(4)),
        (true, 200, None, None),
    ];
    assert!(rt; tells(&report, &wanted));
    let labels = [
        Label::Granted(1),
        Label::Issued(1),
        Label::Issued(2),
        Label::Issued(3),
        Label::Issued(4),
        Label::Issued(5),
    ];
    assert_eq!(rt; report.labels.rows(), labels.as_slice());
    assert_eq!(rt; report.ledger.len(), 6);
    assert_eq!(rt; report.calls.rows(), [4, 2].as_slice());
    assert_eq!(rt; bench.lines().len(), 7);
    Ok(())
}

#[test]
fn shares_the_asks_of_a_round_among_workers(rt: HostRuntime) -> Result<(), Fail> {
    let (report, bench) = run_of(&rt, 2, &[TOKENS, WORKED])?;
    assert_eq!(rt; report.ledger.len(), 6);
    assert_eq!(rt; report.calls.rows(), [4, 2].as_slice());
    assert_eq!(rt; bench.lines().len(), 7);
    Ok(())
}

#[test]
fn carries_no_token_where_none_was_issued(rt: HostRuntime) -> Result<(), Fail> {
    let asks = "ask a 1000 https://a.example/v/1/s1.ts none
then
ask a 1010 https://a.example/v/1/s1.ts query i1
then
ask a 1020 https://a.example/v/1/s1.ts cookie i1
";
    let (report, _) = run_of(&rt, 1, &[TOKENS, asks])?;
    assert_eq!(rt; report.asks.rows().len(), 3);
    for ask in report.asks.rows() {
        assert_eq!(rt; ask.verdict, Verdict::Denied(Rule::Missing));
    }
    assert_eq!(rt; report.ledger.len(), 1);
    Ok(())
}

#[test]
fn enters_nothing_for_a_token_from_outside(rt: HostRuntime) -> Result<(), Fail> {
    let script = "outside kp {\"iss\":\"cp\",\"exp\":2000,\"cdniets\":30,\"cdnistt\":1,\
        \"cdnistd\":2,\"cdniuc\":\"regex:^https://[^/]*/\"}
ask a 1000 https://a.example/v/1/list.m3u8 query x1
then
ask a 1010 https://a.example/v/1/s1.ts cookie i1
";
    let (report, _) = run_of(&rt, 1, &[script])?;
    let wanted = [(true, 200, None, None), (true, 200, None, None)];
    assert!(rt; tells(&report, &wanted));
    assert_eq!(rt; report.ledger.len(), 0);
    Ok(())
}

#[test]
fn enters_a_token_that_is_granted_twice_twice(rt: HostRuntime) -> Result<(), Fail> {
    let ask = "ask a 1000 https://a.example/v/1/list.m3u8 query g2\n";
    let (report, _) = run_of(&rt, 1, &[TOKENS, TOKENS, ask])?;
    let labels = [Label::Granted(1), Label::Granted(2), Label::Issued(1)];
    assert_eq!(rt; report.labels.rows(), labels.as_slice());
    assert!(rt; tells(&report, &[(true, 200, Some(0), Some(0))]));
    Ok(())
}
