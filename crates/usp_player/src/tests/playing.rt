//! Players over links in memory.
use super::{list_of, list_of_bytes, push_bytes};
use crate::{MAX_PLAYLIST, MAX_SEGMENTS, PlayFault, play, read_map};
use std::alloc::Global;
use std::test::Fail;
use usp_base::{ListedLink, Octets};

// The status, the other fields and the body of an answer.
type Answer<'a> = (u16, &'a str, &'a [u8]);

// A player's first URI, the answers in order, and what is told of it.
type Row<'a> = (&'a str, &'a [Answer<'a>], &'a str);

const MAP: &[u8] = b"a.example 1\nb.example 2\na.example:8080 3\n";

const FOUR: &[u8] =
    b"#EXTM3U\n#EXT-X-TARGETDURATION:6\n#EXTINF:5.96,\ns1.ts\n#EXTINF:6,\nhttp://b.example/s2.ts\n\
    #EXTINF:6,\n../s3.ts?q#f\n#EXTINF:6,\n/s4.ts\n#EXT-X-ENDLIST\n";

const ONE: &[u8] = b"#EXTM3U\n#EXT-X-TARGETDURATION:6\n#EXTINF:6,\ns1.ts\n";

const FTP: &[u8] = b"#EXTM3U\n#EXT-X-TARGETDURATION:6\n#EXTINF:6,\nftp://a.example/s1.ts\n";

const TO_X: Answer<'static> = (302, "Location: /x\r\n", b"");

const OK: Answer<'static> = (200, "", b"ok");

// The bytes of an answer.
fn bytes_of(alloc: Global, answer: &Answer<'_>) -> Result<Octets, Fail> {
    let (status, fields, body) = *answer;
    let head = format!(in alloc;
        "HTTP/1.1 {status} -\r\nContent-Length: {}\r\n{fields}\r\n",
        body.len()
    )?;
    let mut bytes = head.into_bytes();
    bytes.extend_from_slice(body)?;
    Ok(Octets::of(bytes))
}

// A link with these answers, of which some asks fail.
fn link_of(alloc: Global, answers: &[Answer<'_>], failing: &[u64]) -> Result<ListedLink, Fail> {
    let mut bytes = Vec::new(alloc);
    for answer in answers {
        bytes.push(bytes_of(alloc, answer)?)?;
    }
    Ok(ListedLink::new(alloc, bytes, failing.to_vec(alloc)?))
}

// Each answered request as `STATUS AUTHORITY PATH|`, and how it ended.
fn told(alloc: Global, link: &mut ListedLink, map: &[u8], first: &[u8]) -> Result<String, Fail> {
    let map = read_map(alloc, map)?;
    let (transcript, fault) = match play(alloc, link, &map, first) {
        Ok(transcript) => (transcript, None),
        Err((transcript, fault)) => (transcript, Some(fault)),
    };
    let mut line = String::new(alloc);
    for step in transcript.steps() {
        line.push_str(&format!(in alloc; "{} ", step.status)?)?;
        push_bytes(alloc, &mut line, step.authority.bytes())?;
        line.push_str(" ")?;
        push_bytes(alloc, &mut line, step.path.bytes())?;
        line.push_str("|")?;
    }
    match fault {
        None => line.push_str("played")?,
        Some(fault) => line.push_str(&format!(in alloc; "{fault:?}")?)?,
    }
    Ok(line)
}

const ROWS: [Row<'static>; 26] = [
    // Redirections.
    (
        "http://a.example/v",
        &[TO_X, TO_X, TO_X, TO_X, TO_X, TO_X, TO_X],
        "302 a.example /v|302 a.example /x|302 a.example /x|302 a.example /x|302 a.example /x|302 a.example /x|\
         TooManyHops",
    ),
    (
        "http://a.example/v",
        &[TO_X, TO_X, TO_X, TO_X, TO_X, (200, "", ONE), OK],
        "302 a.example /v|302 a.example /x|302 a.example /x|302 a.example /x|302 a.example /x|200 a.example /x|\
         200 a.example /s1.ts|played",
    ),
    (
        "http://a.example/v/list.m3u8",
        &[
            (302, "Location: http://b.example/w/list.m3u8\r\n", b""),
            (200, "", ONE),
            OK,
        ],
        "302 a.example /v/list.m3u8|200 b.example /w/list.m3u8|200 b.example /w/s1.ts|played",
    ),
    (
        "http://a.example/v/list.m3u8",
        &[
            (200, "", FOUR),
            (302, "Location: t1.ts\r\n", b""),
            OK,
            OK,
            OK,
            OK,
        ],
        "200 a.example /v/list.m3u8|302 a.example /v/s1.ts|200 a.example /v/t1.ts|200 b.example /s2.ts|\
         200 a.example /s3.ts|200 a.example /s4.ts|played",
    ),
    (
        "http://a.example/v",
        &[(302, "", b"")],
        "302 a.example /v|NoLocation",
    ),
    (
        "http://a.example/v",
        &[(302, "Location: ftp://a.example/\r\n", b"")],
        "302 a.example /v|BadUri",
    ),
    // Statuses.
    (
        "http://a.example/v",
        &[(403, "", b"")],
        "403 a.example /v|Denied",
    ),
    (
        "http://a.example/v",
        &[(404, "", b"")],
        "404 a.example /v|Denied",
    ),
    (
        "http://a.example/v",
        &[(301, "Location: /x\r\n", b"")],
        "301 a.example /v|Denied",
    ),
    (
        "http://a.example/v",
        &[(204, "", b"")],
        "204 a.example /v|Denied",
    ),
    (
        "http://a.example/v",
        &[(200, "", ONE), (403, "", b"")],
        "200 a.example /v|403 a.example /s1.ts|Denied",
    ),
    // URIs.
    ("ftp://a.example/v", &[], "BadUri"),
    ("", &[], "BadUri"),
    ("/v", &[], "BadUri"),
    ("http://c.example/v", &[], "NoAddress"),
    ("http://a.example:81/v", &[], "NoAddress"),
    (
        "http://a.example:80/v",
        &[(403, "", b"")],
        "403 a.example /v|Denied",
    ),
    (
        "https://a.example:443/v",
        &[(403, "", b"")],
        "403 a.example /v|Denied",
    ),
    (
        "http://a.example:8080/v",
        &[(403, "", b"")],
        "403 a.example:8080 /v|Denied",
    ),
    (
        "http://a.example/v",
        &[(200, "", FTP)],
        "200 a.example /v|BadUri",
    ),
    // Answers that are no reply, and a link that fails.
    (
        "http://a.example/v",
        &[(200, "Content-Length: 0\r\n", b"")],
        "BadReply",
    ),
    (
        "http://a.example/v",
        &[(200, "", ONE)],
        "200 a.example /v|LinkFault",
    ),
    // Bodies that are no playlist.
    (
        "http://a.example/v",
        &[(200, "", b"")],
        "200 a.example /v|List(NoHeader)",
    ),
    (
        "http://a.example/v",
        &[(200, "", b"#EXTM3U")],
        "200 a.example /v|List(NoTarget)",
    ),
    (
        "http://a.example/v",
        &[(200, "", b"\xff")],
        "200 a.example /v|List(NotUtf8 { at: 0 })",
    ),
    (
        "http://a.example/v",
        &[(200, "", b"#EXTM3U\n#EXT-X-TARGETDURATION:6\n")],
        "200 a.example /v|played",
    ),
];

#[test]
fn players_end_as_their_links_answer(rt: HostRuntime) -> Result<(), Fail> {
    for (first, answers, wanted) in ROWS {
        let mut link = link_of(rt.alloc(), answers, &[])?;
        let found = told(rt.alloc(), &mut link, MAP, first.as_bytes())?;
        assert_eq!(rt; found.as_str(), wanted);
    }
    Ok(())
}

#[test]
fn a_list_that_is_refused_ends_its_player(rt: HostRuntime) -> Result<(), Fail> {
    for (lines, wanted) in [
        ("#EXT-X-TARGETDURATION:x\n", "BadTarget { line: 2 }"),
        ("#EXTINF:x,\na\n", "BadInf { line: 2 }"),
        ("a\n", "NoInf { line: 2 }"),
        ("#EXT-X-BYTERANGE:5\n", "ByteRange { line: 2 }"),
    ] {
        let list = format!(in rt.alloc(); "#EXTM3U\n{lines}")?;
        let mut link = link_of(rt.alloc(), &[(200, "", list.as_bytes())], &[])?;
        let found = told(rt.alloc(), &mut link, MAP, b"http://a.example/v")?;
        let expected = format!(in rt.alloc(); "200 a.example /v|List({wanted})")?;
        assert_eq!(rt; found.as_str(), expected.as_str());
    }
    Ok(())
}

#[test]
fn a_list_that_is_too_long_ends_its_player(rt: HostRuntime) -> Result<(), Fail> {
    let alloc = rt.alloc();
    for (list, wanted) in [
        (
            list_of(alloc, MAX_SEGMENTS + 1)?.into_bytes(),
            "200 a.example /v|List(TooMany { line: 20004 })",
        ),
        (
            list_of_bytes(alloc, b"#EXTM3U", MAX_PLAYLIST + 1)?,
            "200 a.example /v|List(TooLong)",
        ),
    ] {
        let mut link = link_of(alloc, &[(200, "", &list)], &[])?;
        let found = told(alloc, &mut link, MAP, b"http://a.example/v")?;
        assert_eq!(rt; found.as_str(), wanted);
    }
    Ok(())
}

#[test]
fn a_failed_ask_ends_its_player(rt: HostRuntime) -> Result<(), Fail> {
    let mut link = link_of(rt.alloc(), &[(200, "", FOUR), OK, OK], &[2])?;
    let found = told(rt.alloc(), &mut link, MAP, b"http://a.example/v/list.m3u8")?;
    assert_eq!(rt;
        found.as_str(),
        "200 a.example /v/list.m3u8|200 a.example /v/s1.ts|LinkFault"
    );
    assert_eq!(rt; link.asks().len(), 3);
    Ok(())
}

#[test]
fn an_empty_map_has_no_address(rt: HostRuntime) -> Result<(), Fail> {
    let mut link = link_of(rt.alloc(), &[OK], &[])?;
    for (first, wanted) in [
        (b"http://a.example/v".as_slice(), "NoAddress"),
        (b"ftp://a.example/v", "BadUri"),
        (b"http://a.example/\xff", "BadUri"),
    ] {
        let found = told(rt.alloc(), &mut link, b"", first)?;
        assert_eq!(rt; found.as_str(), wanted);
    }
    assert_eq!(rt; link.asks().len(), 0);
    Ok(())
}

#[test]
fn cookies_go_with_later_requests_of_their_authority(rt: HostRuntime) -> Result<(), Fail> {
    let mut link = link_of(
        rt.alloc(),
        &[
            (302, "Set-Cookie: t=0; Path=/v\r\nLocation: l.m3u8\r\n", b""),
            (
                200,
                "Set-Cookie: t=1; Path=/v\r\nset-cookie: u=2; Path=/\r\n",
                FOUR,
            ),
            (200, "Set-Cookie: t=3; Path=/v\r\n", b"ok"),
            OK,
            OK,
            OK,
        ],
        &[],
    )?;
    let found = told(
        rt.alloc(),
        &mut link,
        MAP,
        b"http://a.example:80/v/list.m3u8?x=1#f",
    )?;
    assert!(rt; found.as_str().ends_with("|played"));
    let wanted: [(&[u8], &[u8]); 6] = [
        (
            b"1",
            b"GET /v/list.m3u8?x=1 HTTP/1.1\r\nHost: a.example\r\nConnection: close\r\n\r\n",
        ),
        (
            b"1",
            b"GET /v/l.m3u8 HTTP/1.1\r\nHost: a.example\r\nCookie: t=0\r\nConnection: close\r\n\r\n",
        ),
        (
            b"1",
            b"GET /v/s1.ts HTTP/1.1\r\nHost: a.example\r\nCookie: t=1; u=2\r\nConnection: close\r\n\r\n",
        ),
        (
            b"2",
            b"GET /s2.ts HTTP/1.1\r\nHost: b.example\r\nConnection: close\r\n\r\n",
        ),
        (
            b"1",
            b"GET /s3.ts?q HTTP/1.1\r\nHost: a.example\r\nCookie: u=2\r\nConnection: close\r\n\r\n",
        ),
        (
            b"1",
            b"GET /s4.ts HTTP/1.1\r\nHost: a.example\r\nCookie: u=2\r\nConnection: close\r\n\r\n",
        ),
    ];
    assert_eq!(rt; link.asks().len(), 6);
    for (asked, (address, head)) in link.asks().iter().zip(wanted) {
        assert!(rt; asked.address.bytes() == address);
        assert!(rt; asked.head.bytes() == head);
    }
    Ok(())
}

#[test]
fn why_a_player_stopped_says_what_to_mend(rt: HostRuntime) -> Result<(), Fail> {
    for (fault, wanted) in [
        (PlayFault::BadUri, "give a URI of http or https, in UTF-8"),
        (
            PlayFault::NoAddress,
            "add a line of the URI's authority to the map",
        ),
        (
            PlayFault::LinkFault,
            "the link failed: look at the server, and at the map",
        ),
        (
            PlayFault::NoLocation,
            "a 302 without a Location: look at the server",
        ),
        (
            PlayFault::TooManyHops,
            "a request was redirected more than 5 times: look for a circle",
        ),
        (
            PlayFault::Denied,
            "the status is neither 200 nor 302: look at the token",
        ),
        (PlayFault::NoMemory, "out of memory: try again with more"),
    ] {
        assert_eq!(rt; format!(in rt.alloc(); "{fault}")?.as_str(), wanted);
    }
    Ok(())
}
