//! Scripts that are read, and the line at which others are refused.
use crate::{Carried, Label, MAX_EDGES, Script, ScriptFault, read_script};
use std::alloc::{AllocError, Global};
use std::test::Fail;
use usp_base::{Files, LoadFault, MemoryFile, Octets, SteadyFiles};

// The configurations of two edges. The first sends requests on to the second.
const A: &str =
    "{\"edge\":\"a\",\"scheme\":\"https\",\"keys\":[{\"kid\":\"kp\",\"issuer\":\"cp\",\"secret\":\
    \"AQEBAQEBAQEBAQEBAQEBAQEBAQEBAQEBAQEBAQEBAQE\"},{\"kid\":\"ka\",\"issuer\":\"cdn-a\",\"secret\":\
    \"AgICAgICAgICAgICAgICAgICAgICAgICAgICAgICAgI\"}],\"issuers\":[\"cp\",\"cdn-a\"],\"audience\":\
    [\"cdn-a\"],\"sign_kid\":\"ka\",\"routes\":[{\"prefix\":\"/b/\",\"scheme\":\"https\",\"authority\":\
    \"b.example\",\"kid\":\"kab\",\"issuer\":\"cdn-a\",\"secret\":\
    \"AwMDAwMDAwMDAwMDAwMDAwMDAwMDAwMDAwMDAwMDAwM\",\"audience\":\"cdn-b\"}]}";

const B: &str =
    "{\"edge\":\"b\",\"scheme\":\"https\",\"keys\":[{\"kid\":\"kab\",\"issuer\":\"cdn-a\",\"secret\":\
    \"AwMDAwMDAwMDAwMDAwMDAwMDAwMDAwMDAwMDAwMDAwM\"},{\"kid\":\"kb\",\"issuer\":\"cdn-b\",\"secret\":\
    \"BAQEBAQEBAQEBAQEBAQEBAQEBAQEBAQEBAQEBAQEBAQ\"}],\"issuers\":[\"cdn-a\",\"cdn-b\"],\"audience\":\
    [\"cdn-b\"],\"sign_kid\":\"kb\"}";

// A script of five rounds over both.
const WORKED: &str = "edge a.json
edge b.json
object a https://a.example/v/1/list.m3u8 list
object a https://a.example/v/1/s1.ts one
object a https://a.example/v/1/s2.ts two
object b https://b.example/b/s3.ts three
key kp cp AQEBAQEBAQEBAQEBAQEBAQEBAQEBAQEBAQEBAQEBAQE
grant kp {\"iss\":\"cp\",\"aud\":\"cdn-a\",\"exp\":2000,\"nbf\":900,\"jti\":\"n1\",\"cdniets\":30,\
    \"cdnistt\":1,\"cdnistd\":2,\"cdniuc\":\"regex:^https://[^/]*/\"}
outside kp {\"exp\":2000,\"cdniuc\":\"regex:^https://a\"}
ask a 1000 https://a.example/v/1/list.m3u8 query g1
then
ask a 1010 https://a.example/v/1/s1.ts cookie i1
then
ask a 1020 https://a.example/v/1/s2.ts cookie i2
ask a 1025 https://a.example/b/s3.ts cookie i2
then
ask b 1030 https://b.example/b/s3.ts query i4
then
ask b 1031 https://b.example/b/s3.ts query i4
ask a 1040 https://a.example/v/1/s1.ts query x1
";

// The head of the scripts that are refused behind it: two edges, an object and a key.
const HEAD: &str = "edge a.json
edge b.json
object a https://a.example/v list
key kp cp AQEBAQEBAQEBAQEBAQEBAQEBAQEBAQEBAQEBAQEBAQE
";

const HEAD_LINES: u64 = 4;

fn add_file(
    alloc: Global,
    files: &mut Vec<MemoryFile>,
    name: &str,
    text: &str,
) -> Result<(), AllocError> {
    files.push(MemoryFile {
        name: Octets::of(name.as_bytes().to_vec(alloc)?),
        bytes: Octets::of(text.as_bytes().to_vec(alloc)?),
    })?;
    Ok(())
}

// Both configurations, one of them under two names, and a file that is none.
fn some_files(alloc: Global) -> Result<Vec<MemoryFile>, AllocError> {
    let mut files = Vec::new(alloc);
    add_file(alloc, &mut files, "a.json", A)?;
    add_file(alloc, &mut files, "b.json", B)?;
    add_file(alloc, &mut files, "a b.json", A)?;
    add_file(alloc, &mut files, "none.json", "{}")?;
    Ok(files)
}

// Files that keep the names asked for.
#[derive(Drop)]
struct NotedFiles {
    files: SteadyFiles,
    names: String,
}

impl Files for NotedFiles {
    ghost use Rattle.std.specs.Prelude.{Some};
    ghost use Rattle.usp_base.specs.Memory.{steady_asked, steady_file_faults, steady_files};

    ghost files = { λ f. Some (steady_files f.files) };

    ghost asked = { λ f. Some (steady_asked f.files) };

    ghost file_count = { λ f. steady_file_faults f.files };

    fn load(&mut self, alloc: Global, name: &str) -> Result<Vec<u8>, LoadFault> {
        self.names.push_str(name)?;
        self.names.push('\n')?;
        self.files.load(alloc, name)
    }

    fn file_faults(&self) -> u64 {
        self.files.file_faults()
    }
}

// What is read of a script over those files, and the names asked for, each on a line.
fn read(alloc: Global, input: &[u8]) -> Result<(Result<Script, ScriptFault>, String), AllocError> {
    let mut files = NotedFiles {
        files: SteadyFiles::new(alloc, some_files(alloc)?),
        names: String::new(alloc),
    };
    let script = read_script(alloc, &mut files, input);
    Ok((script, files.names))
}

// What a script is refused for. None where it is read.
fn refusal(alloc: Global, input: &[u8]) -> Result<Option<ScriptFault>, AllocError> {
    let (script, _names) = read(alloc, input)?;
    Ok(script.err())
}

fn joined(alloc: Global, front: &str, back: &str) -> Result<String, AllocError> {
    let mut text = String::from_str(alloc, front)?;
    text.push_str(back)?;
    Ok(text)
}

#[test]
fn the_worked_script_is_read(rt: HostRuntime) -> Result<(), Fail> {
    let alloc = rt.alloc();
    let (script, names) = read(alloc, WORKED.as_bytes())?;
    let script = script?;
    assert_eq!(rt; names.as_str(), "a.json\nb.json\n");
    assert_eq!(rt; script.edges().len(), 2);
    assert_eq!(rt; script.edges()[1].edge().text(), "b");
    assert_eq!(rt; script.outsides().len(), 1);
    assert_eq!(rt; script.objects().len(), 4);
    let object = &script.objects()[3];
    assert_eq!(rt; object.edge, 1);
    assert_eq!(rt; object.uri.text(), b"https://b.example/b/s3.ts".as_slice());
    assert_eq!(rt; object.text.bytes(), b"three".as_slice());
    let counts: [(usize, usize); 5] = [(1, 1), (0, 1), (0, 2), (0, 1), (0, 2)];
    assert_eq!(rt; script.rounds().len(), counts.len());
    for (round, count) in script.rounds().iter().zip(&counts) {
        assert_eq!(rt; round.grants.rows().len(), count.0);
        assert_eq!(rt; round.asks.rows().len(), count.1);
    }
    let asks = script.rounds()[4].asks.rows();
    assert_eq!(rt; asks.len(), 2);
    assert_eq!(rt; asks[0].edge, 1);
    assert_eq!(rt; asks[0].carried, Carried::InQuery(Label::Issued(4)));
    assert_eq!(rt; asks[1].edge, 0);
    assert_eq!(rt; asks[1].moment, 1040);
    assert_eq!(rt; asks[1].carried, Carried::InQuery(Label::Outside(1)));
    assert_eq!(rt;
        asks[1].uri.text(),
        b"https://a.example/v/1/s1.ts".as_slice()
    );
    Ok(())
}

#[test]
fn scripts_at_the_limits_of_the_forms_are_read(rt: HostRuntime) -> Result<(), Fail> {
    let alloc = rt.alloc();
    let rows: [&str; 9] = [
        "",
        "object a https://a.example/w \n",
        "object a HTTPS://A.example:443/%77 two words\r\nobject a https://a.example/w x",
        "then\nthen\n",
        "key k.2_- x AgICAgICAgICAgICAgICAgICAgICAgICAgICAgICAgI\nkey k3 x AgICAgICAgICAgICAgICAgICAgICAgICAgICAgICAgI",
        "ask a 0 https://a.example/v none\nthen\nask b 4503599627370495 https://a.example/v cookie i1",
        "grant kp {\"cdniuc\":\"hash:x\"}\nask a 1 https://a.example/v?URISigningPackage=x cookie g1",
        "grant kp { \"cdniuc\" : \"hash:x\" }\nask a 1 https://a.example/v?b=URISigningPackage query g1",
        "outside kp {\"cdniuc\":\"hash:x\"}\ngrant kp {\"cdniuc\":\"hash:x\"}\nask a 1 https://a.example/v query x1",
    ];
    for row in rows {
        let input = joined(alloc, HEAD, row)?;
        assert_eq!(rt; refusal(alloc, input.as_bytes())?, None);
    }
    assert_eq!(rt; refusal(alloc, b"")?, None);
    Ok(())
}

// The numbers count the lines behind the head.
const REFUSED: [(&str, u64); 58] = [
    // The form.
    ("\n", 1),
    ("frob\n", 1),
    (" then\n", 1),
    ("then \n", 1),
    ("then x\n", 1),
    ("edge\n", 1),
    ("object a https://a.example/w\n", 1),
    ("object a  https://a.example/w x\n", 1),
    ("key k2 cp\n", 1),
    ("grant kp\n", 1),
    ("outside kp\n", 1),
    ("Ask a 1 https://a.example/v none\n", 1),
    ("ask a 1 https://a.example/v\n", 1),
    ("ask a 1 https://a.example/v none \n", 1),
    ("ask a 1 https://a.example/v none x\n", 1),
    ("ask a 1 https://a.example/v query\n", 1),
    ("ask a 1 https://a.example/v head g1\n", 1),
    ("ask a 1  https://a.example/v none\n", 1),
    // An unknown or a repeated name.
    ("object c https://a.example/w x\n", 1),
    ("ask c 1 https://a.example/v none\n", 1),
    ("grant kq {\"cdniuc\":\"hash:x\"}\n", 1),
    ("outside ka {\"cdniuc\":\"hash:x\"}\n", 1),
    ("key kp x AgICAgICAgICAgICAgICAgICAgICAgICAgICAgICAgI\n", 1),
    // A refused part.
    ("object a ftp://a.example/w x\n", 1),
    ("key k! cp AgICAgICAgICAgICAgICAgICAgICAgICAgICAgICAgI\n", 1),
    (
        "key k2 c\"p AgICAgICAgICAgICAgICAgICAgICAgICAgICAgICAgI\n",
        1,
    ),
    (
        "key k2 cp AgICAgICAgICAgICAgICAgICAgICAgICAgICAgICAgI=\n",
        1,
    ),
    ("key k2 cp AgICAgICAgICAgICAgICAgICAgICAgICAgICAgICAgJ\n", 1),
    ("key k2 cp AgICAgICAgICAgICAgICAgICAgICAgICAgICAgICAg\n", 1),
    ("grant kp {\"exp\":1}\n", 1),
    ("grant kp {\"cdniuc\":\"hash:x\"} x\n", 1),
    ("outside kp \n", 1),
    ("ask a 01 https://a.example/v none\n", 1),
    ("ask a 4503599627370496 https://a.example/v none\n", 1),
    ("ask a x https://a.example/v none\n", 1),
    ("ask a 1 https://a.example/%zz none\n", 1),
    // A label of no token that may be named.
    ("ask a 1 https://a.example/v query g1\n", 1),
    (
        "grant kp {\"cdniuc\":\"hash:x\"}\nask a 1 https://a.example/v query g2\n",
        2,
    ),
    (
        "grant kp {\"cdniuc\":\"hash:x\"}\nask a 1 https://a.example/v query g0\n",
        2,
    ),
    (
        "grant kp {\"cdniuc\":\"hash:x\"}\nask a 1 https://a.example/v query g01\n",
        2,
    ),
    (
        "grant kp {\"cdniuc\":\"hash:x\"}\nask a 1 https://a.example/v query g\n",
        2,
    ),
    (
        "grant kp {\"cdniuc\":\"hash:x\"}\nask a 1 https://a.example/v query g1 \n",
        2,
    ),
    (
        "grant kp {\"cdniuc\":\"hash:x\"}\nask a 1 https://a.example/v cookie x1\n",
        2,
    ),
    (
        "outside kp {\"cdniuc\":\"hash:x\"}\nask a 1 https://a.example/v cookie g1\n",
        2,
    ),
    (
        "grant kp {\"cdniuc\":\"hash:x\"}\nask a 1 https://a.example/v query h1\n",
        2,
    ),
    (
        "ask a 1 https://a.example/v none\nask a 1 https://a.example/v query i1\n",
        2,
    ),
    (
        "ask a 1 https://a.example/v none\nthen\nask a 1 https://a.example/v query i2\n",
        3,
    ),
    (
        "ask a 1 https://a.example/v none\nthen\nask a 1 https://a.example/v none\n\
            ask a 1 https://a.example/v query i2\n",
        4,
    ),
    // A package where the token goes.
    (
        "grant kp {\"cdniuc\":\"hash:x\"}\nask a 1 https://a.example/v?URISigningPackage=x query g1\n",
        2,
    ),
    (
        "grant kp {\"cdniuc\":\"hash:x\"}\nask a 1 https://a.example/v;URISigningPackage=%41 query g1\n",
        2,
    ),
    // The order of the lines.
    ("edge a b.json\n", 1),
    ("then\nobject a https://a.example/w x\n", 2),
    (
        "then\nkey k2 cp AgICAgICAgICAgICAgICAgICAgICAgICAgICAgICAgI\n",
        2,
    ),
    (
        "grant kp {\"cdniuc\":\"hash:x\"}\nobject a https://a.example/w x\n",
        2,
    ),
    (
        "outside kp {\"cdniuc\":\"hash:x\"}\nobject a https://a.example/w x\n",
        2,
    ),
    (
        "ask a 1 https://a.example/v none\nobject a https://a.example/w x\n",
        2,
    ),
    // The first of two.
    ("then\nfrob\nthen\nfrob\n", 2),
    ("ask a 1 https://a.example/v none\r\nfrob\r\n", 2),
];

#[test]
fn names_the_first_line_that_is_refused(rt: HostRuntime) -> Result<(), Fail> {
    let alloc = rt.alloc();
    for (back, line) in REFUSED {
        let input = joined(alloc, HEAD, back)?;
        let number = HEAD_LINES.saturating_add(line);
        let (script, names) = read(alloc, input.as_bytes())?;
        assert_eq!(rt; script.err(), Some(ScriptFault::Line { number }), "{back}");
        assert_eq!(rt; names.as_str(), "a.json\nb.json\n");
    }
    Ok(())
}

#[test]
fn refuses_an_edge_by_its_file_or_its_place(rt: HostRuntime) -> Result<(), Fail> {
    let alloc = rt.alloc();
    let rows: [(&[u8], u64, &str); 7] = [
        (b"edge none.json\n", 1, "none.json\n"),
        (b"edge a.json\nedge a.json\n", 2, "a.json\na.json\n"),
        (b"edge a.json\nedge a b.json\n", 2, "a.json\na b.json\n"),
        (b"edge b.json\nthen\nedge a.json\n", 3, "b.json\n"),
        (
            b"key k2 cp AgICAgICAgICAgICAgICAgICAgICAgICAgICAgICAgI\nedge b.json\nedge\n",
            3,
            "b.json\n",
        ),
        (b"edge \xff\n", 1, ""),
        (b"frob\nedge no.json\n", 1, ""),
    ];
    for (input, number, asked) in rows {
        let (script, names) = read(alloc, input)?;
        assert_eq!(rt; script.err(), Some(ScriptFault::Line { number }));
        assert_eq!(rt; names.as_str(), asked);
    }
    Ok(())
}

#[test]
fn a_file_that_is_not_there_is_no_refusal(rt: HostRuntime) -> Result<(), Fail> {
    let alloc = rt.alloc();
    let (script, names) = read(alloc, b"edge a.json\nedge no.json\nedge b.json\nfrob\n")?;
    assert_eq!(rt; script.err(), Some(ScriptFault::Unloaded));
    assert_eq!(rt; names.as_str(), "a.json\nno.json\n");
    Ok(())
}

// A script that adds so many edges, and their files.
fn many_edges(alloc: Global, count: usize) -> Result<(String, Vec<MemoryFile>), AllocError> {
    let mut input = String::new(alloc);
    let mut files = Vec::new(alloc);
    for i in 0..count {
        let name = format!(in alloc; "{i}.json")?;
        let mut conf = format!(in alloc; "{{\"edge\":\"e{i}\"")?;
        conf.push_str(B.get(11..).unwrap_or(""))?;
        add_file(alloc, &mut files, name.as_str(), conf.as_str())?;
        input.push_str("edge ")?;
        input.push_str(name.as_str())?;
        input.push('\n')?;
    }
    Ok((input, files))
}

#[test]
fn refuses_one_edge_too_many(rt: HostRuntime) -> Result<(), Fail> {
    let alloc = rt.alloc();
    let rows = [(64, None), (65, Some(ScriptFault::Line { number: 65 }))];
    for (count, fault) in rows {
        let (input, files) = many_edges(alloc, count)?;
        let mut files = SteadyFiles::new(alloc, files);
        let script = read_script(alloc, &mut files, input.as_bytes());
        assert_eq!(rt; script.err(), fault);
    }
    assert_eq!(rt; MAX_EDGES, 64);
    Ok(())
}
