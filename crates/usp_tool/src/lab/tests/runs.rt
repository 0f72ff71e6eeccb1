//! Scripts that are run, and generated ones.
use super::{TWICE, TWICE_SHOWN, joined, lab_runs};
use std::test::Fail;
use usp_base::Status;

// Two edges, their objects and a key.
const HEAD: &str = "edge a.json
edge b.json
object a https://a.example/v/1/list.m3u8 list
object a https://a.example/v/1/s1.ts one
object a https://a.example/v/1/s2.ts two
object b https://b.example/b/s3.ts three
key kp cp AQEBAQEBAQEBAQEBAQEBAQEBAQEBAQEBAQEBAQEBAQE
";

// A grant that is renewed at each use, and a token that nobody granted.
const TOKENS: &str =
    "grant kp {\"iss\":\"cp\",\"aud\":\"cdn-a\",\"exp\":2000,\"nbf\":900,\"jti\":\"n1\",\"cdniets\":30,\
    \"cdnistt\":1,\"cdnistd\":2,\"cdniuc\":\"regex:^https://[^/]*/\"}
outside kp {\"exp\":2000,\"cdniuc\":\"regex:^https://a\"}
";

// A grant that is not renewed.
const UNRENEWED: &str =
    "grant kp {\"iss\":\"cp\",\"aud\":\"cdn-a\",\"exp\":2000,\"cdniuc\":\"regex:^https://[^/]*/\"}
";

const ASKS: &str = "ask a 1000 https://a.example/v/1/list.m3u8 query g1
then
ask a 1010 https://a.example/v/1/s1.ts cookie i1
then
ask a 1020 https://a.example/v/1/s2.ts cookie i2
ask a 1025 https://a.example/b/s3.ts cookie i2
then
ask b 1030 https://b.example/b/s3.ts query i4
then
ask b 1031 https://b.example/b/s3.ts query i4
ask a 1040 https://a.example/v/1/s1.ts query x1
";

// What is written of them: the lines in front of the third round, those of that round, whose two nonce calls come in
// either order (the time of a table never goes back), and those behind.
const FRONT: &str = "1 a admitted 200 nonce 0 at 1000 chain g1[900-2000]
2 a admitted 200 nonce 1 at 1010 chain g1[900-2000]>i1[900-1030]
";

const IN_ORDER: &str =
    "3 a admitted 200 nonce 2 at 1020 chain g1[900-2000]>i1[900-1030]>i2[900-1040]
4 a admitted 302 nonce 3 at 1025 chain g1[900-2000]>i1[900-1030]>i2[900-1040]
";

const TURNED: &str = "3 a admitted 200 nonce 3 at 1025 chain g1[900-2000]>i1[900-1030]>i2[900-1040]
4 a admitted 302 nonce 2 at 1025 chain g1[900-2000]>i1[900-1030]>i2[900-1040]
";

const BACK: &str =
    "5 b admitted 200 nonce 0 at 1030 chain g1[900-2000]>i1[900-1030]>i2[900-1040]>i4[900-1040]
6 b denied 17 Seen nonce 1 at 1031
7 a admitted 200 chain untraced
edge a calls 4
edge b calls 2
";

#[test]
fn a_script_is_shown_line_by_line(rt: HostRuntime) -> Result<(), Fail> {
    let alloc = rt.alloc();
    let script = joined(alloc, &[HEAD, TOKENS, ASKS])?;
    let in_order = joined(alloc, &[FRONT, IN_ORDER, BACK])?;
    let turned = joined(alloc, &[FRONT, TURNED, BACK])?;
    let (status, text) = lab_runs(&rt, &["lab", "1"], &script)?;
    assert_eq!(rt; status, Status::Denials);
    assert!(rt; text == in_order);
    for workers in ["2", "16"] {
        let (status, text) = lab_runs(&rt, &["lab", workers], &script)?;
        assert_eq!(rt; status, Status::Denials);
        assert!(rt; text == in_order || text == turned);
    }
    Ok(())
}

// Each row has the parts behind the head, the status and what is written.
const ROWS: [(&[&str], Status, &str); 5] = [
    // An ask whose label's ask issued nothing carries no token.
    (
        &[
            UNRENEWED,
            "ask a 1000 https://a.example/v/1/list.m3u8 query g1
then
ask a 1010 https://a.example/v/1/s1.ts cookie i1
",
        ],
        Status::Denials,
        "1 a admitted 200 chain g1[*-2000]
2 a denied 2 Missing
edge a calls 0
edge b calls 0
",
    ),
    (
        &[
            UNRENEWED,
            "ask a 1000 https://a.example/v/1/list.m3u8 query g1\n",
        ],
        Status::Done,
        "1 a admitted 200 chain g1[*-2000]
edge a calls 0
edge b calls 0
",
    ),
    // No label names a grant further down, and nothing is asked then.
    (
        &[
            TOKENS,
            "ask a 1000 https://a.example/v/1/list.m3u8 query g2\n",
        ],
        Status::Refused,
        "refused line 10\n",
    ),
    (
        &[
            TOKENS,
            "ask a 1000 https://a.example/v/1/list.m3u8 query g1
ask a 1000 https://a.example/v/1/list.m3u8 query g2
",
            UNRENEWED,
        ],
        Status::Refused,
        "refused line 11\n",
    ),
    (&[], Status::Done, "edge a calls 0\nedge b calls 0\n"),
];

#[test]
fn small_scripts_are_shown(rt: HostRuntime) -> Result<(), Fail> {
    let alloc = rt.alloc();
    for (parts, wanted, shown) in ROWS {
        let mut script = HEAD.as_bytes().to_vec(alloc)?;
        script.extend_from_slice(&joined(alloc, parts)?)?;
        let (status, text) = lab_runs(&rt, &["lab", "1"], &script)?;
        assert_eq!(rt; status, wanted);
        assert!(rt; text.as_slice() == shown.as_bytes());
    }
    Ok(())
}

#[test]
fn one_of_two_asks_with_one_nonce_is_admitted(rt: HostRuntime) -> Result<(), Fail> {
    for workers in ["1", "2"] {
        let (status, text) = lab_runs(&rt, &["lab", workers], TWICE.as_bytes())?;
        assert_eq!(rt; status, Status::Denials);
        assert!(rt; TWICE_SHOWN.contains(&text.as_slice()));
    }
    Ok(())
}

#[test]
fn small_generated_scripts_are_summed(rt: HostRuntime) -> Result<(), Fail> {
    let rows: [(&str, &[u8]); 2] = [
        (
            "1",
            b"groups 1 asks 10 admitted 8 denied 2 calls 9 ledger 9\n",
        ),
        (
            "10",
            b"groups 10 asks 100 admitted 80 denied 20 calls 90 ledger 90\n",
        ),
    ];
    for (groups, shown) in rows {
        let (status, text) = lab_runs(&rt, &["lab-from", groups], b"")?;
        assert_eq!(rt; status, Status::Denials);
        assert_eq!(rt; text.as_slice(), shown);
    }
    Ok(())
}

#[test]
fn a_thousand_groups_are_summed(rt: HostRuntime) -> Result<(), Fail> {
    let (status, text) = lab_runs(&rt, &["lab-from", "1000"], b"")?;
    let shown = b"groups 1000 asks 10000 admitted 8000 denied 2000 calls 9000 ledger 9000\n";
    assert_eq!(rt; status, Status::Denials);
    assert_eq!(rt; text.as_slice(), shown.as_slice());
    Ok(())
}
