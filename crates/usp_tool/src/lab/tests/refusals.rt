//! Scripts of which a line is refused.
use super::{B, add_file, joined, lab_over, lab_runs};
use std::alloc::{AllocError, Global};
use std::test::Fail;
use usp_base::{MemoryFile, Status};
use usp_lab::PlainBench;

// The head of the scripts that are refused behind it: two edges, an object and a key.
const HEAD: &str = "edge a.json
edge b.json
object a https://a.example/v list
key kp cp AQEBAQEBAQEBAQEBAQEBAQEBAQEBAQEBAQEBAQEBAQE
";

const HEAD_LINES: u64 = 4;

// The numbers count the lines behind the head.
const BEHIND: [(&str, u64); 55] = [
    // The form.
    ("\n", 1),
    ("frob\n", 1),
    (" then\n", 1),
    ("then x\n", 1),
    ("object a https://a.example/w\n", 1),
    ("object a  https://a.example/w x\n", 1),
    ("key k2 cp\n", 1),
    ("grant kp\n", 1),
    ("outside kp\n", 1),
    ("Ask a 1 https://a.example/v none\n", 1),
    ("ask\ta 1 https://a.example/v none\n", 1),
    ("ask a 1 https://a.example/v\n", 1),
    ("ask a 1 https://a.example/v none \n", 1),
    ("ask a 1 https://a.example/v query\n", 1),
    ("ask a 1 https://a.example/v head g1\n", 1),
    ("ask a 1  https://a.example/v none\n", 1),
    // An unknown or a repeated name.
    ("object c https://a.example/w x\n", 1),
    ("ask c 1 https://a.example/v none\n", 1),
    ("grant kq {\"cdniuc\":\"hash:x\"}\n", 1),
    ("outside ka {\"cdniuc\":\"hash:x\"}\n", 1),
    ("key kp x AgICAgICAgICAgICAgICAgICAgICAgICAgICAgICAgI\n", 1),
    // A refused part.
    ("object a ftp://a.example/w x\n", 1),
    ("key k! cp AgICAgICAgICAgICAgICAgICAgICAgICAgICAgICAgI\n", 1),
    (
        "key k2 c\"p AgICAgICAgICAgICAgICAgICAgICAgICAgICAgICAgI\n",
        1,
    ),
    (
        "key k2 cp AgICAgICAgICAgICAgICAgICAgICAgICAgICAgICAgI=\n",
        1,
    ),
    ("key k2 cp AgICAgICAgICAgICAgICAgICAgICAgICAgICAgICAgJ\n", 1),
    ("key k2 cp AgICAgICAgICAgICAgICAgICAgICAgICAgICAgICAg\n", 1),
    ("grant kp {\"exp\":1}\n", 1),
    ("grant kp {\"cdniuc\":\"hash:x\"} x\n", 1),
    ("outside kp \n", 1),
    ("ask a 01 https://a.example/v none\n", 1),
    ("ask a 4503599627370496 https://a.example/v none\n", 1),
    ("ask a x https://a.example/v none\n", 1),
    ("ask a 1 https://a.example/%zz none\n", 1),
    // A label of no token that may be named.
    ("ask a 1 https://a.example/v query g1\n", 1),
    (
        "grant kp {\"cdniuc\":\"hash:x\"}\nask a 1 https://a.example/v query g2\n",
        2,
    ),
    (
        "grant kp {\"cdniuc\":\"hash:x\"}\nask a 1 https://a.example/v query g0\n",
        2,
    ),
    (
        "grant kp {\"cdniuc\":\"hash:x\"}\nask a 1 https://a.example/v query g01\n",
        2,
    ),
    (
        "grant kp {\"cdniuc\":\"hash:x\"}\nask a 1 https://a.example/v query g\n",
        2,
    ),
    (
        "grant kp {\"cdniuc\":\"hash:x\"}\nask a 1 https://a.example/v query g1 \n",
        2,
    ),
    (
        "grant kp {\"cdniuc\":\"hash:x\"}\nask a 1 https://a.example/v cookie x1\n",
        2,
    ),
    (
        "outside kp {\"cdniuc\":\"hash:x\"}\nask a 1 https://a.example/v cookie g1\n",
        2,
    ),
    (
        "grant kp {\"cdniuc\":\"hash:x\"}\nask a 1 https://a.example/v query h1\n",
        2,
    ),
    (
        "ask a 1 https://a.example/v none\nask a 1 https://a.example/v query i1\n",
        2,
    ),
    (
        "ask a 1 https://a.example/v none\nthen\nask a 1 https://a.example/v query i2\n",
        3,
    ),
    // A package where the token goes.
    (
        "grant kp {\"cdniuc\":\"hash:x\"}\nask a 1 https://a.example/v?URISigningPackage=x query g1\n",
        2,
    ),
    (
        "grant kp {\"cdniuc\":\"hash:x\"}\nask a 1 https://a.example/v;URISigningPackage=%41 query g1\n",
        2,
    ),
    // The order of the lines.
    ("edge a b.json\n", 1),
    ("then\nobject a https://a.example/w x\n", 2),
    (
        "then\nkey k2 cp AgICAgICAgICAgICAgICAgICAgICAgICAgICAgICAgI\n",
        2,
    ),
    (
        "grant kp {\"cdniuc\":\"hash:x\"}\nobject a https://a.example/w x\n",
        2,
    ),
    (
        "outside kp {\"cdniuc\":\"hash:x\"}\nobject a https://a.example/w x\n",
        2,
    ),
    (
        "ask a 1 https://a.example/v none\nobject a https://a.example/w x\n",
        2,
    ),
    // The first of two, behind lines that have a form.
    ("then\nfrob\nthen\nfrob\n", 2),
    ("ask a 1 https://a.example/v none\r\nfrob\r\n", 2),
];

// Scripts without the head, refused by their files for the most part.
const WHOLE: [(&[u8], u64); 7] = [
    (b"edge\n", 1),
    (b"edge none.json\n", 1),
    (b"edge a.json\nedge a.json\n", 2),
    (b"edge a.json\nedge a b.json\n", 2),
    (b"edge \xff\n", 1),
    (b"edge b.json\nthen\nedge a.json\n", 3),
    (b"frob\nedge no.json\n", 1),
];

fn refused(alloc: Global, number: u64) -> Result<String, AllocError> {
    format!(in alloc; "refused line {number}\n")
}

#[test]
fn the_first_line_that_is_refused_is_named_alone(rt: HostRuntime) -> Result<(), Fail> {
    let alloc = rt.alloc();
    for (back, line) in BEHIND {
        let script = joined(alloc, &[HEAD, back])?;
        let (status, text) = lab_runs(&rt, &["lab", "1"], &script)?;
        let number = HEAD_LINES.saturating_add(line);
        assert_eq!(rt; status, Status::Refused, "{back}");
        assert!(rt; text.as_slice() == refused(alloc, number)?.as_bytes());
    }
    for (script, number) in WHOLE {
        let (status, text) = lab_runs(&rt, &["lab", "2"], script)?;
        assert_eq!(rt; status, Status::Refused);
        assert!(rt; text.as_slice() == refused(alloc, number)?.as_bytes());
    }
    Ok(())
}

// A script that adds so many edges, and their files.
fn many_edges(alloc: Global, count: usize) -> Result<(Vec<u8>, Vec<MemoryFile>), AllocError> {
    let mut script = String::new(alloc);
    let mut files = Vec::new(alloc);
    for i in 0..count {
        let name = format!(in alloc; "{i}.json")?;
        let mut conf = format!(in alloc; "{{\"edge\":\"e{i}\"")?;
        conf.push_str(B.get(11..).unwrap_or(""))?;
        add_file(alloc, &mut files, name.as_str(), conf.as_str())?;
        script.push_str("edge ")?;
        script.push_str(name.as_str())?;
        script.push('\n')?;
    }
    Ok((script.as_bytes().to_vec(alloc)?, files))
}

#[test]
fn a_script_has_at_most_64_edges(rt: HostRuntime) -> Result<(), Fail> {
    let alloc = rt.alloc();
    for (count, wanted) in [(64, Status::Done), (65, Status::Refused)] {
        let (script, files) = many_edges(alloc, count)?;
        let (status, text) = lab_over(&rt, &["lab", "1"], files, &script, PlainBench::new())?;
        assert_eq!(rt; status, wanted);
        if wanted == Status::Refused {
            assert!(rt; text.as_slice() == b"refused line 65\n".as_slice());
        }
    }
    Ok(())
}
