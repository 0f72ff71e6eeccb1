//! Heads of connections that are cut in many ways, and the texts of replies.
ghost use Rattle.std.specs.Prelude.{◌≡◌, IfOk};
ghost use Rattle.usp_http.specs.Replies.{IsStatus};

use crate::{
    Field, HeadFault, HeadReader, HeardFault, MAX_HEAD, Method, Next, NoMemory, Reply, read_digits,
    read_reply, reply_bytes,
};
use std::alloc::{AllocError, Global};
use std::test::Fail;
use usp_base::{ListedSource, Octets, Source, SteadySource};

// Three requests of a player, and a fourth that is cut.
const CONNECTION: &[u8] = b"GET /v?URISigningPackage=e30.e30.AA HTTP/1.1\r\nHost: h\r\n\r\n\
    GET /v?URISigningPackage=e30.e30.AA HTTP/1.1\r\nHost: h\r\nCookie: a=1\r\nCookie: b=2\r\n\r\n\
    HEAD /w HTTP/1.1\nhost:h\nConnection: Keep-Alive, close\n\n\
    GET /v";

// How a head looks in the tables below.
fn push_head(alloc: Global, text: &mut String, next: &Next) -> Result<(), NoMemory> {
    let line = format!(in alloc; "{next:?}\n")?;
    text.push_str(&line)?;
    Ok(())
}

// All that comes over the connection, up to the first that is no head.
fn all_of<S: Source>(
    alloc: Global,
    reader: &mut HeadReader,
    source: &mut S,
) -> Result<String, NoMemory> {
    let mut text = String::new(alloc);
    for _ in 0..10 {
        let next = reader.next_head(source);
        push_head(alloc, &mut text, &next)?;
        if !matches!(&next, Next::Found(_)) {
            return Ok(text);
        }
    }
    Ok(text)
}

// The same, from a source that gives at most so many bytes at a time.
fn pieces_of(alloc: Global, bytes: &[u8], most: usize) -> Result<String, NoMemory> {
    let mut source = ListedSource::new(bytes.to_vec(alloc)?, most.max(1), Vec::new(alloc));
    all_of(alloc, &mut HeadReader::new(alloc)?, &mut source)
}

// The same, where the first read gives the bytes in front of the cut, and a read then fails.
fn cut_at(alloc: Global, bytes: &[u8], cut: usize) -> Result<String, NoMemory> {
    let (front, back) = bytes.split_at(cut.min(bytes.len()));
    let mut failing = Vec::new(alloc);
    failing.push(1)?;
    let mut first = ListedSource::new(front.to_vec(alloc)?, 65536, failing);
    let mut rest = SteadySource::new(back.to_vec(alloc)?);
    let mut reader = HeadReader::new(alloc)?;
    let mut text = String::new(alloc);
    for _ in 0..10 {
        let next = reader.next_head(&mut first);
        if matches!(&next, Next::ReadFault) {
            break;
        }
        push_head(alloc, &mut text, &next)?;
    }
    text.push_str(&all_of(alloc, &mut reader, &mut rest)?)?;
    Ok(text)
}

#[test]
fn a_connection_has_the_same_heads_however_it_is_cut(rt: HostRuntime) -> Result<(), Fail> {
    let alloc = rt.alloc();
    let whole = pieces_of(alloc, CONNECTION, 65536)?;
    assert_eq!(rt; whole.lines().count(), 4);
    assert!(rt; whole.ends_with("CutShort\n"));
    for most in 1..CONNECTION.len() {
        assert_eq!(rt;
            pieces_of(alloc, CONNECTION, most)?,
            whole,
            "{most} bytes at a time"
        );
    }
    for cut in 1..CONNECTION.len() {
        assert_eq!(rt; cut_at(alloc, CONNECTION, cut)?, whole, "cut at {cut}");
    }
    Ok(())
}

// One head's parts, as (method, target, host, cookies, last, body).
type Parts = (
    Method,
    &'static str,
    &'static str,
    &'static [&'static str],
    bool,
    bool,
);

fn is_like(next: &Next, parts: &Parts) -> bool {
    let (method, target, host, cookies, last, body) = parts;
    match next {
        Next::Found(head) => {
            let found = head.cookies.rows();
            head.method == *method
                && head.target.bytes() == target.as_bytes()
                && head.host.bytes() == host.as_bytes()
                && head.last == *last
                && head.body == *body
                && found.len() == cookies.len()
                && found
                    .iter()
                    .zip(*cookies)
                    .all(|(a, b)| a.bytes() == b.as_bytes())
        }
        _ => false,
    }
}

#[test]
fn a_head_has_the_parts_that_its_fields_say(rt: HostRuntime) -> Result<(), Fail> {
    let alloc = rt.alloc();
    let rows: [(&str, Parts); 18] = [
        (
            "GET / HTTP/1.1\r\nHost: h\r\n\r\n",
            (Method::Get, "/", "h", &[], false, false),
        ),
        (
            "\r\n\n\r\nHEAD /a HTTP/1.0\nhOST:  h:8 \n\n",
            (Method::Bare, "/a", "h:8", &[], true, false),
        ),
        (
            "get * HTTP/1.1\r\n\r\n",
            (Method::Other, "*", "", &[], false, false),
        ),
        (
            "POST /p HTTP/1.1\r\nContent-Length: 0\r\n\r\n",
            (Method::Other, "/p", "", &[], false, false),
        ),
        (
            "GET / HTTP/1.1\r\nHost: a\r\nHost: a\r\n\r\n",
            (Method::Get, "/", "", &[], false, false),
        ),
        (
            "GET / HTTP/1.1\r\nHost:\r\nX-Host: b\r\n\r\n",
            (Method::Get, "/", "", &[], false, false),
        ),
        (
            "GET / HTTP/1.1\r\nCookie: a=1\r\ncOOkie: b=2; c\r\n\r\n",
            (Method::Get, "/", "", &["a=1", "b=2; c"], false, false),
        ),
        (
            "GET / HTTP/1.1\r\nCookie:\r\n\r\n",
            (Method::Get, "/", "", &[""], false, false),
        ),
        (
            "GET / HTTP/1.1\r\nConnection: keep-alive\r\n\r\n",
            (Method::Get, "/", "", &[], false, false),
        ),
        (
            "GET / HTTP/1.1\r\nConnection: x,\t CLOSE ,y\r\n\r\n",
            (Method::Get, "/", "", &[], true, false),
        ),
        (
            "GET / HTTP/1.1\r\nConnection: a\r\nconnection: close\r\n\r\n",
            (Method::Get, "/", "", &[], true, false),
        ),
        (
            "GET / HTTP/1.1\r\nConnection: closed, clo se\r\n\r\n",
            (Method::Get, "/", "", &[], false, false),
        ),
        (
            "GET / HTTP/1.1\r\nContent-Length: 00\r\n\r\n",
            (Method::Get, "/", "", &[], false, true),
        ),
        (
            "GET / HTTP/1.1\r\nContent-Length:\r\n\r\n",
            (Method::Get, "/", "", &[], false, true),
        ),
        (
            "GET / HTTP/1.1\r\ncontent-length: 1\r\n\r\n",
            (Method::Get, "/", "", &[], false, true),
        ),
        (
            "GET / HTTP/1.1\r\nContent-Length: 0\r\nContent-Length: 1\r\n\r\n",
            (Method::Get, "/", "", &[], false, true),
        ),
        (
            "GET / HTTP/1.1\r\nTransfer-Encoding: chunked\r\n\r\n",
            (Method::Get, "/", "", &[], false, true),
        ),
        (
            "GET / HTTP/1.1\r\nTransfer-Encoding:\r\n\r\n",
            (Method::Get, "/", "", &[], false, true),
        ),
    ];
    for (text, parts) in &rows {
        let mut reader = HeadReader::new(alloc)?;
        let mut source = SteadySource::new(text.as_bytes().to_vec(alloc)?);
        assert!(rt; is_like(&reader.next_head(&mut source), parts), "{text}");
        assert!(rt;
            matches!(reader.next_head(&mut source), Next::Ended),
            "{text}"
        );
    }
    Ok(())
}

// What comes first, and the same again without a read.
fn first_of(alloc: Global, bytes: &[u8], most: usize) -> Result<(Next, Next), NoMemory> {
    let mut source = ListedSource::new(bytes.to_vec(alloc)?, most.max(1), Vec::new(alloc));
    let mut reader = HeadReader::new(alloc)?;
    let first = reader.next_head(&mut source);
    let second = reader.next_head(&mut SteadySource::new(b"GET / HTTP/1.1\r\n\r\n".to_vec(alloc)?));
    Ok((first, second))
}

#[test]
fn what_is_no_head_has_its_fault_and_keeps_it(rt: HostRuntime) -> Result<(), Fail> {
    let alloc = rt.alloc();
    let rows: [(&[u8], &str); 11] = [
        (b"\r\n", "CutShort"),
        (b"GET /v", "CutShort"),
        (b"GET / HTTP/1.1\r\nHost: h\r\n", "CutShort"),
        // A target is no UTF-8 only where it has ended.
        (b"GET /\xff", "CutShort"),
        (b"GET /\xff HTTP/1.1\r\n\r\n", "BadHead"),
        (b"G@T / HTTP/1.1\r\n\r\n", "BadHead"),
        (b"GET / HTTP/2.0\r\n\r\n", "BadHead"),
        (b"GET  / HTTP/1.1\r\n\r\n", "BadHead"),
        (b"GET / HTTP/1.1\r\nHost\r\n\r\n", "BadHead"),
        (b"GET / HTTP/1.1\r\nHost : h\r\n\r\n", "BadHead"),
        (b"GET / HTTP/1.1\r\nA: b\r\n c\r\n\r\n", "BadHead"),
    ];
    for (bytes, expected) in rows {
        for most in [1, 7, 100] {
            let (first, second) = first_of(alloc, bytes, most)?;
            assert_eq!(rt; format!(in alloc; "{first:?}")?.as_str(), expected);
            assert_eq!(rt; format!(in alloc; "{second:?}")?.as_str(), expected);
        }
    }
    Ok(())
}

#[test]
fn an_empty_line_behind_the_last_head_is_cut_short(rt: HostRuntime) -> Result<(), Fail> {
    let alloc = rt.alloc();
    for most in [1, 7, 100] {
        let bytes = b"GET / HTTP/1.1\r\n\r\n\r\n".to_vec(alloc)?;
        let mut source = ListedSource::new(bytes, most, Vec::new(alloc));
        let mut reader = HeadReader::new(alloc)?;
        assert!(rt; matches!(reader.next_head(&mut source), Next::Found(_)));
        assert!(rt; matches!(reader.next_head(&mut source), Next::CutShort));
    }
    Ok(())
}

#[test]
fn faults_say_what_to_mend(rt: HostRuntime) -> Result<(), Fail> {
    let alloc = rt.alloc();
    for (fault, expected) in [
        (
            HeadFault::CutShort,
            "the connection ended within a head: send it whole",
        ),
        (
            HeadFault::BadHead,
            "not the head of an HTTP/1.1 request: mend its first line and its fields",
        ),
        (
            HeadFault::HeadTooLong,
            "the head is longer than 16,384 bytes: send fewer or shorter fields",
        ),
        (
            HeadFault::ManyHeaders,
            "the head has more than 64 fields: send fewer",
        ),
    ] {
        assert_eq!(rt; format!(in alloc; "{fault}")?.as_str(), expected);
    }
    for (fault, expected) in [
        (
            HeardFault::BadReply,
            "no reply of HTTP/1 with one Content-Length and a body of that length: look at the server",
        ),
        (HeardFault::NoMemory, "out of memory: try again with more"),
    ] {
        assert_eq!(rt; format!(in alloc; "{fault}")?.as_str(), expected);
    }
    assert_eq!(rt;
        format!(in alloc; "{NoMemory}")?.as_str(),
        "out of memory: try again with more"
    );
    Ok(())
}

// A request with so many fields, without its last empty line.
fn with_fields(alloc: Global, count: usize) -> Result<Vec<u8>, AllocError> {
    let mut bytes = b"GET / HTTP/1.1\r\n".to_vec(alloc)?;
    for _ in 0..count {
        bytes.extend_from_slice(b"a:\n")?;
    }
    Ok(bytes)
}

#[test]
fn a_head_has_64_fields_and_no_more(rt: HostRuntime) -> Result<(), Fail> {
    let alloc = rt.alloc();
    for (count, expected) in [(64, "Found"), (65, "ManyHeaders"), (5000, "ManyHeaders")] {
        let mut bytes = with_fields(alloc, count)?;
        let (open, _) = first_of(alloc, &bytes, 4000)?;
        assert!(rt;
            matches!(open, Next::CutShort),
            "{count} fields without an end"
        );
        bytes.extend_from_slice(b"\r\n")?;
        for most in [3, 4000] {
            let (first, _) = first_of(alloc, &bytes, most)?;
            assert!(rt;
                format!(in alloc; "{first:?}")?.starts_with(expected),
                "{count} fields"
            );
        }
    }
    Ok(())
}

// A request of so many bytes, its last empty line among them.
fn with_length(alloc: Global, length: usize) -> Result<Vec<u8>, AllocError> {
    let mut bytes = b"GET / HTTP/1.1\r\na: ".to_vec(alloc)?;
    for _ in 23..length {
        bytes.push(b'x')?;
    }
    bytes.extend_from_slice(b"\r\n\r\n")?;
    Ok(bytes)
}

#[test]
fn a_head_has_16384_bytes_and_no_more(rt: HostRuntime) -> Result<(), Fail> {
    let alloc = rt.alloc();
    for (length, expected) in [
        (16384, "Found"),
        (16385, "HeadTooLong"),
        (20000, "HeadTooLong"),
    ] {
        let bytes = with_length(alloc, length)?;
        assert_eq!(rt; bytes.len(), length);
        for most in [1, 5000, 65536] {
            let (first, _) = first_of(alloc, &bytes, most)?;
            assert!(rt;
                format!(in alloc; "{first:?}")?.starts_with(expected),
                "{length} bytes"
            );
        }
    }
    // Without its last byte the longest head is open, and one byte more leaves no room for an end.
    for (length, expected) in [(16384, "CutShort"), (16385, "HeadTooLong")] {
        let mut bytes = with_length(alloc, length)?;
        let _ = bytes.pop();
        let (open, _) = first_of(alloc, &bytes, 5000)?;
        assert_eq!(rt; format!(in alloc; "{open:?}")?.as_str(), expected);
    }
    Ok(())
}

// How many bytes the source still gives.
fn count_left<S: Source>(source: &mut S) -> usize {
    let mut left = 0usize;
    let mut buffer = [0u8; 100];
    for _ in 0..1000 {
        match source.read(&mut buffer) {
            Ok(0) => return left,
            Ok(count) => left = left.saturating_add(count),
            Err(_) => return left,
        }
    }
    left
}

#[test]
fn nothing_is_read_behind_a_head_that_has_come(rt: HostRuntime) -> Result<(), Fail> {
    let alloc = rt.alloc();
    let rows: [&[u8]; 5] = [
        b"GET / HTTP/1.1\r\nHost: h\r\n\r\n",
        b"\n\r\n\n\nGET / HTTP/1.1\nHost: h\n\n",
        b"GET / HTTP/1.1\r\n\n",
        b"GET / HTTP/1.1\n\r\n",
        b"GET / HTTP/1.1\r\nA: b\r\nC:\n\r\n",
    ];
    for head in rows {
        let mut bytes = head.to_vec(alloc)?;
        bytes.extend_from_slice(b"GET /next HTTP/1.1\r\n\r\n")?;
        let mut source = ListedSource::new(bytes, 1, Vec::new(alloc));
        assert!(rt;
            matches!(
                HeadReader::new(alloc)?.next_head(&mut source),
                Next::Found(_)
            )
        );
        assert_eq!(rt; count_left(&mut source), 22);
    }
    Ok(())
}

fn text_of(alloc: Global, bytes: &[u8]) -> Result<Octets, AllocError> {
    Ok(Octets::of(bytes.to_vec(alloc)?))
}

fn reply(
    alloc: Global,
    status: u16,
    field: Field,
    last: bool,
    body: &[u8],
) -> Result<Reply, AllocError>
    ensures { IfOk result (λ reply. reply.status ≡ status) }
{
    Ok(Reply {
        status,
        body: text_of(alloc, body)?,
        field,
        last,
        bare: false,
    })
}

// Whether the reply has this head and body to GET, and this head alone to HEAD.
fn is_told(alloc: Global, answer: Reply, head: &str, body: &str) -> Result<bool, NoMemory>
    requires { IsStatus answer.status }
{
    let mut answer = answer;
    let mut expected = head.as_bytes().to_vec(alloc)?;
    answer.bare = true;
    let bare = reply_bytes(alloc, &answer)? == expected;
    expected.extend_from_slice(body.as_bytes())?;
    answer.bare = false;
    Ok(bare && reply_bytes(alloc, &answer)? == expected)
}

#[test]
fn a_reply_has_its_whole_text_to_get_and_to_head(rt: HostRuntime) -> Result<(), Fail> {
    let alloc = rt.alloc();
    let answer = reply(alloc, 200, Field::Plain, false, b"ok")?;
    assert!(rt;
        is_told(
            alloc,
            answer,
            "HTTP/1.1 200 OK\r\nContent-Length: 2\r\n\r\n",
            "ok"
        )?
    );
    let cookie = Field::SetCookie(text_of(alloc, b"t=1; Path=/")?);
    let answer = reply(alloc, 200, cookie, true, b"0123456789")?;
    let head =
        "HTTP/1.1 200 OK\r\nContent-Length: 10\r\nSet-Cookie: t=1; Path=/\r\nConnection: close\r\n\r\n";
    assert!(rt; is_told(alloc, answer, head, "0123456789")?);
    let location = Field::Location(text_of(alloc, b"http://o/v")?);
    let answer = reply(alloc, 302, location, false, b"")?;
    let head = "HTTP/1.1 302 Found\r\nContent-Length: 0\r\nLocation: http://o/v\r\n\r\n";
    assert!(rt; is_told(alloc, answer, head, "")?);
    let answer = reply(alloc, 405, Field::Allow, true, b"method\n")?;
    let head =
        "HTTP/1.1 405 Method Not Allowed\r\nContent-Length: 7\r\nAllow: GET, HEAD\r\nConnection: close\r\n\r\n";
    assert!(rt; is_told(alloc, answer, head, "method\n")?);
    Ok(())
}

#[test]
fn a_reply_names_its_status(rt: HostRuntime) -> Result<(), Fail> {
    let alloc = rt.alloc();
    let rows = [
        (400, "HTTP/1.1 400 Bad Request\r\n"),
        (403, "HTTP/1.1 403 Forbidden\r\n"),
        (404, "HTTP/1.1 404 Not Found\r\n"),
        (502, "HTTP/1.1 502 Bad Gateway\r\n"),
        (503, "HTTP/1.1 503 Service Unavailable\r\n"),
    ];
    for (status, line) in rows {
        if status == 400 || status == 403 || status == 404 || status == 502 || status == 503 {
            let answer = reply(alloc, status, Field::Plain, false, b"no\n")?;
            let head = format!(in alloc; "{line}Content-Length: 3\r\n\r\n")?;
            assert!(rt; is_told(alloc, answer, &head, "no\n")?);
        }
    }
    Ok(())
}

// What is heard in a reply, as (status, location, cookies, body).
type HeardParts = (
    u16,
    Option<&'static str>,
    &'static [&'static str],
    &'static str,
);

fn hears(alloc: Global, bytes: &[u8], parts: &HeardParts) -> bool {
    let (status, location, cookies, body) = parts;
    match read_reply(alloc, bytes) {
        Ok(heard) => {
            let found = heard.cookies.rows();
            heard.status == *status
                && heard.location.as_ref().map(|value| value.bytes())
                    == location.map(|value| value.as_bytes())
                && heard.body.bytes() == body.as_bytes()
                && found.len() == cookies.len()
                && found
                    .iter()
                    .zip(*cookies)
                    .all(|(a, b)| a.bytes() == b.as_bytes())
        }
        Err(_) => false,
    }
}

#[test]
fn a_reply_is_heard_with_its_parts(rt: HostRuntime) {
    let alloc = rt.alloc();
    let rows: [(&str, HeardParts); 11] = [
        (
            "HTTP/1.1 200 OK\r\nContent-Length: 2\r\n\r\nok",
            (200, None, &[], "ok"),
        ),
        (
            "HTTP/1.0 200\r\ncontent-LENGTH:\t002 \r\n\r\nok",
            (200, None, &[], "ok"),
        ),
        (
            "\r\nHTTP/1.1 200 OK\nContent-Length: 2\n\nok",
            (200, None, &[], "ok"),
        ),
        (
            "HTTP/1.1 302 Found\r\nLocation: /x\r\nContent-Length: 0\r\n\r\n",
            (302, Some("/x"), &[], ""),
        ),
        (
            "HTTP/1.1 302 Found\r\nlocation: /a\r\nContent-Length: 000\r\nLocation: /b\r\n\r\n",
            (302, Some("/a"), &[], ""),
        ),
        (
            "HTTP/1.1 302 Found\r\nLocation:\r\nContent-Length: 0\r\n\r\n",
            (302, Some(""), &[], ""),
        ),
        (
            "HTTP/1.1 200 OK\r\nset-cookie: a=1\r\nContent-Length: 1\r\nSet-Cookie: b=2; Path=/\r\n\r\n\n",
            (200, None, &["a=1", "b=2; Path=/"], "\n"),
        ),
        (
            "HTTP/1.1 403 Forbidden\r\nContent-Length: 18\r\n\r\ndenied 13 Expired\n",
            (403, None, &[], "denied 13 Expired\n"),
        ),
        (
            "HTTP/1.1 100 Continue\r\nContent-Length: 0\r\n\r\n",
            (100, None, &[], ""),
        ),
        (
            "HTTP/1.1 204 No Content\r\nContent-Length: 2\r\n\r\n\r\n",
            (204, None, &[], "\r\n"),
        ),
        (
            "HTTP/1.1 200 OK\r\nTransfer-Encoding: chunked\r\nX-Content-Length: 9\r\nContent-Length: 1\r\n\r\nx",
            (200, None, &[], "x"),
        ),
    ];
    for (bytes, parts) in rows {
        assert!(rt; hears(alloc, bytes.as_bytes(), &parts), "{bytes}");
    }
}

#[test]
fn bytes_that_are_no_whole_reply_are_not_heard(rt: HostRuntime) {
    for bytes in [
        "HTTP/1.1 200 OK\r\nContent-Length: 2\r\n\r\no",
        "HTTP/1.1 200 OK\r\nContent-Length: 2\r\n\r\nokk",
        "HTTP/1.1 200 OK\r\n\r\nok",
        "HTTP/1.1 200 OK\r\n\r\n",
        "HTTP/1.1 200 OK\r\nContent-Length: 2\r\nContent-Length: 2\r\n\r\nok",
        "HTTP/1.1 200 OK\r\nContent-Length: 2\r\ncontent-length: 3\r\n\r\nok",
        "HTTP/1.1 200 OK\r\nContent-Length: 2, 2\r\n\r\nok",
        "HTTP/1.1 200 OK\r\nContent-Length: +2\r\n\r\nok",
        "HTTP/1.1 200 OK\r\nContent-Length: 2.0\r\n\r\nok",
        "HTTP/1.1 200 OK\r\nContent-Length: 0x2\r\n\r\nok",
        "HTTP/1.1 200 OK\r\nContent-Length:\r\n\r\n",
        "HTTP/1.1 200 OK\r\nContent-Length: 18446744073709551618\r\n\r\nok",
        "HTTP/1.1 200 OK\r\nContent-Length: 340282366920938463463374607431768211458\r\n\r\nok",
        "HTTP/1.1 200 OK\r\nContent-Length: 2\r\n",
        "HTTP/1.1 20 OK\r\nContent-Length: 2\r\n\r\nok",
        "HTTP/2 200 OK\r\nContent-Length: 2\r\n\r\nok",
        "GET / HTTP/1.1\r\nContent-Length: 2\r\n\r\nok",
        "ok",
        "",
    ] {
        let found = read_reply(rt.alloc(), bytes.as_bytes()).err();
        assert!(rt; found == Some(HeardFault::BadReply), "{bytes}");
    }
}

// A reply whose head has so many fields and so many bytes.
fn reply_of(alloc: Global, fields: usize, head: usize) -> Result<Vec<u8>, AllocError> {
    let mut bytes = b"HTTP/1.1 200 OK\r\nContent-Length: 2\r\n".to_vec(alloc)?;
    for _ in 2..fields {
        bytes.extend_from_slice(b"a: 1\r\n")?;
    }
    bytes.extend_from_slice(b"b: ")?;
    for _ in bytes.len()..head.saturating_sub(4) {
        bytes.push(b'x')?;
    }
    bytes.extend_from_slice(b"\r\n\r\nok")?;
    Ok(bytes)
}

#[test]
fn a_reply_is_heard_up_to_the_limits_of_its_head(rt: HostRuntime) -> Result<(), Fail> {
    for (fields, head, heard) in [
        (64, 1_000, true),
        (65, 1_000, false),
        (2, MAX_HEAD, true),
        (2, MAX_HEAD + 1, false),
        (64, MAX_HEAD, true),
    ] {
        let bytes = reply_of(rt.alloc(), fields, head)?;
        assert_eq!(rt; bytes.len(), head.saturating_add(2));
        assert_eq!(rt;
            read_reply(rt.alloc(), &bytes).is_ok(),
            heard,
            "{fields} {head}"
        );
    }
    Ok(())
}

#[test]
fn digits_spell_numbers_up_to_the_greatest(rt: HostRuntime) {
    for (text, most, number) in [
        ("0", 0, Some(0)),
        ("000", 0, Some(0)),
        ("1", 0, None),
        ("00042", 42, Some(42)),
        ("43", 42, None),
        ("18446744073709551615", u64::MAX, Some(u64::MAX)),
        ("18446744073709551616", u64::MAX, None),
        (
            "99999999999999999999999999999999999999999999",
            u64::MAX,
            None,
        ),
        ("", 9, None),
        (" 1", 9, None),
        ("1 ", 9, None),
        ("-1", 9, None),
        ("1a", 99, None),
    ] {
        assert!(rt; read_digits(text.as_bytes(), most) == number, "{text}");
    }
}
