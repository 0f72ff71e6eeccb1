use super::*;
use std::alloc::{AllocError, Global};
use std::test::*;

fn reads_as(alloc: Global, text: &[u8], wanted: &[u8]) -> bool {
    match read_uri(alloc, text) {
        Ok(uri) => uri.text() == wanted && check_uri(text) == Ok(()),
        Err(_) => false,
    }
}

/// Whether both calls refuse the text by this fault.
fn is_refused(alloc: Global, text: &[u8], wanted: UriFault) -> bool {
    match read_uri(alloc, text) {
        Ok(_) => false,
        Err(fault) => fault == wanted && check_uri(text) == Err(wanted),
    }
}

/// The front, the byte until the text has this length, and the end.
fn long_text(
    alloc: Global,
    front: &str,
    byte: u8,
    length: usize,
    end: &str,
) -> Result<Vec<u8>, AllocError> {
    let mut text = Vec::new(alloc);
    text.extend_from_slice(front.as_bytes())?;
    for _ in front.len()..length {
        text.push(byte)?;
    }
    text.extend_from_slice(end.as_bytes())?;
    Ok(text)
}

fn long_text_reads_as(alloc: Global, front: &str, length: usize, end: &str, wanted: &str) -> bool {
    let Ok(text) = long_text(alloc, front, b'a', length, end) else {
        return false;
    };
    match long_text(alloc, front, b'a', length, wanted) {
        Ok(wanted) => reads_as(alloc, &text, &wanted),
        Err(_) => false,
    }
}

fn long_text_is_too_long(alloc: Global, front: &str, length: usize, end: &str) -> bool {
    match long_text(alloc, front, b'a', length, end) {
        Ok(text) => is_refused(alloc, &text, UriFault::TooLong),
        Err(_) => false,
    }
}

fn is_place(alloc: Global, scheme: &str, authority: &str, wanted: (&str, &str)) -> bool {
    match Place::new(alloc, scheme.as_bytes(), authority.as_bytes()) {
        Ok(place) => {
            place.scheme() == wanted.0.as_bytes() && place.authority() == wanted.1.as_bytes()
        }
        Err(_) => false,
    }
}

fn is_no_place(alloc: Global, scheme: &str, authority: &str, wanted: UriFault) -> bool {
    match Place::new(alloc, scheme.as_bytes(), authority.as_bytes()) {
        Ok(_) => false,
        Err(fault) => fault == wanted,
    }
}

/// The text's URI at the place.
fn moved_text(alloc: Global, text: &[u8], scheme: &str, authority: &str) -> Result<Uri, UriFault> {
    let uri = read_uri(alloc, text)?;
    let place = Place::new(alloc, scheme.as_bytes(), authority.as_bytes())?;
    moved(alloc, &uri, &place)
}

fn moves_as(alloc: Global, text: &str, scheme: &str, authority: &str, wanted: &str) -> bool {
    match moved_text(alloc, text.as_bytes(), scheme, authority) {
        Ok(uri) => uri.text() == wanted.as_bytes(),
        Err(_) => false,
    }
}

/// Whether the longest URI of the host `h` is too long at the host.
fn is_too_long_at(alloc: Global, host: &str) -> bool {
    match long_text(alloc, "http://h/", b'a', 8192, "") {
        Ok(text) => match moved_text(alloc, &text, "http", host) {
            Ok(_) => false,
            Err(fault) => fault == UriFault::TooLong,
        },
        Err(_) => false,
    }
}

fn requests(alloc: Global, host: &str, target: &str, wanted: &str) -> bool {
    match request_uri(alloc, b"http", host.as_bytes(), target.as_bytes()) {
        Ok(text) => text.as_slice() == wanted.as_bytes(),
        Err(_) => false,
    }
}

/// Scheme, authority, path and query of the text's normal form.
fn shows(alloc: Global, text: &str, wanted: [&str; 3], query: Option<&[u8]>) -> bool {
    match read_uri(alloc, text.as_bytes()) {
        Ok(uri) => {
            uri.scheme() == wanted[0].as_bytes()
                && uri.authority() == wanted[1].as_bytes()
                && uri.path() == wanted[2].as_bytes()
                && uri.query() == query
        }
        Err(_) => false,
    }
}

#[test]
fn gives_normal_forms_of_schemes_hosts_and_ports(rt: HostRuntime) {
    for (text, wanted) in [
        (
            "HTTP://Example.COM:80/%7ea/./b/../c",
            "http://example.com/~a/c",
        ),
        ("http://h/", "http://h/"),
        ("https://h/", "https://h/"),
        ("HTTP://h/", "http://h/"),
        ("hTtPs://H/", "https://h/"),
        ("http://a-b.c_d~e.0/", "http://a-b.c_d~e.0/"),
        ("http://A.B-C/", "http://a.b-c/"),
        ("http://127.0.0.1/", "http://127.0.0.1/"),
        ("http://./", "http://./"),
        ("http://http/http://", "http://http/http://"),
        ("http://h:80/", "http://h/"),
        ("https://h:80/", "https://h:80/"),
        ("http://h:443/", "http://h:443/"),
        ("HTTPS://h:443/", "https://h/"),
        ("http://h:/", "http://h/"),
        ("https://h:", "https://h/"),
        ("http://h:1/", "http://h:1/"),
        ("http://h:800/", "http://h:800/"),
        ("http://h:65535/", "http://h:65535/"),
        ("http://h:8080", "http://h:8080/"),
        ("http://h", "http://h/"),
        ("http://h?", "http://h/?"),
        ("https://h:443?x", "https://h/?x"),
        ("http://h:443?x", "http://h:443/?x"),
        ("http://h:?x", "http://h/?x"),
        ("http://h?/a", "http://h/?/a"),
        ("http://h/@", "http://h/@"),
        ("http://h?@", "http://h/?@"),
    ] {
        assert!(rt;
            reads_as(rt.alloc(), text.as_bytes(), wanted.as_bytes()),
            "{text}"
        );
    }
}

#[test]
fn gives_normal_forms_of_paths_and_queries(rt: HostRuntime) {
    for (text, wanted) in [
        ("http://h/%41%5a%61%7A%30%39", "http://h/AZaz09"),
        ("http://h/%2d%5F%7e%2E.", "http://h/-_~.."),
        ("http://h:/%2f", "http://h/%2F"),
        (
            "http://h/%21%24%26%27%28%29%2a",
            "http://h/%21%24%26%27%28%29%2A",
        ),
        ("http://h/%2b%2c%3b%3d", "http://h/%2B%2C%3B%3D"),
        (
            "http://h/%3a%2F%3f%23%5b%5d%40",
            "http://h/%3A%2F%3F%23%5B%5D%40",
        ),
        ("http://h/%00%1f%20%7f%80%fF", "http://h/%00%1F%20%7F%80%FF"),
        ("http://h/%25%32%65", "http://h/%252e"),
        ("http://h/?%41%2f%3F", "http://h/?A%2F%3F"),
        ("http://h/?%2e%2e/%2E", "http://h/?../."),
        ("http://h/ABC?DEF", "http://h/ABC?DEF"),
        ("http://h/!$&'()*+,;=:@", "http://h/!$&'()*+,;=:@"),
        ("http://h/?!$&'()*+,;=:@/?", "http://h/?!$&'()*+,;=:@/?"),
        ("http://h/.", "http://h/"),
        ("http://h/..", "http://h/"),
        ("http://h/./", "http://h/"),
        ("http://h/../", "http://h/"),
        ("http://h/./a", "http://h/a"),
        ("http://h/../a", "http://h/a"),
        ("http://h/a/.", "http://h/a/"),
        ("http://h/a/..", "http://h/"),
        ("http://h/a/./b", "http://h/a/b"),
        ("http://h/a/../b", "http://h/b"),
        ("http://h/a/b/..", "http://h/a/"),
        ("http://h/a/b/../..", "http://h/"),
        ("http://h/a/../../../b", "http://h/b"),
        ("http://h/a/b/c/./../../g", "http://h/a/g"),
        ("http://h//", "http://h//"),
        ("http://h//a", "http://h//a"),
        ("http://h/a//b", "http://h/a//b"),
        ("http://h//..", "http://h/"),
        ("http://h/a//../b", "http://h/a/b"),
        ("http://h/a/..//b", "http://h//b"),
        ("http://h/a/.//.", "http://h/a//"),
        ("http://h/.a/..b/c./d..", "http://h/.a/..b/c./d.."),
        ("http://h/...", "http://h/..."),
        ("http://h/a/%2e%2E/b", "http://h/b"),
        ("http://h/%2e", "http://h/"),
        ("http://h/a/%2e./b", "http://h/b"),
        ("http://h/a/%2e%2e%2fb", "http://h/a/..%2Fb"),
        ("http://h/a/..?b/../c", "http://h/?b/../c"),
    ] {
        assert!(rt;
            reads_as(rt.alloc(), text.as_bytes(), wanted.as_bytes()),
            "{text}"
        );
    }
}

#[test]
fn names_the_first_fault_of_scheme_and_authority(rt: HostRuntime) {
    for (text, wanted) in [
        ("", UriFault::Scheme),
        ("http", UriFault::Scheme),
        ("http:/h/", UriFault::Scheme),
        ("http//h/", UriFault::Scheme),
        ("ftp://h/", UriFault::Scheme),
        (" http://h/", UriFault::Scheme),
        ("httpx://h/", UriFault::Scheme),
        ("://h/", UriFault::Scheme),
        ("http://u@h/", UriFault::Userinfo),
        ("http://@/", UriFault::Userinfo),
        ("http://u:p@h", UriFault::Userinfo),
        ("http://h:80@?", UriFault::Userinfo),
        ("http://%@h#", UriFault::Userinfo),
        ("http:///a", UriFault::Syntax { at: 7 }),
        ("http://", UriFault::Syntax { at: 7 }),
        ("https://", UriFault::Syntax { at: 8 }),
        ("http://?x", UriFault::Syntax { at: 7 }),
        ("http://#", UriFault::Syntax { at: 7 }),
        ("http://:80/", UriFault::Syntax { at: 7 }),
        ("http://[::1]/", UriFault::Syntax { at: 7 }),
        ("http://a b/", UriFault::Syntax { at: 8 }),
        ("http://h%41/", UriFault::Syntax { at: 8 }),
        ("https://h!:x/", UriFault::Syntax { at: 9 }),
        ("http://hé/", UriFault::Syntax { at: 8 }),
        ("http://h:080/", UriFault::Port),
        ("http://h:0/", UriFault::Port),
        ("http://h:65536/", UriFault::Port),
        ("http://h:99999999999999999999/", UriFault::Port),
        ("http://h:8a/", UriFault::Port),
        ("http://h:+1/", UriFault::Port),
        ("http://h::80/", UriFault::Port),
        ("http://h:%38/", UriFault::Port),
        ("http://h:x/%zz", UriFault::Port),
    ] {
        assert!(rt; is_refused(rt.alloc(), text.as_bytes(), wanted), "{text}");
    }
}

#[test]
fn names_the_first_fault_of_path_and_query(rt: HostRuntime) {
    for (text, wanted) in [
        ("http://h/#a", UriFault::Fragment),
        ("http://h#", UriFault::Fragment),
        ("http://h:80#x", UriFault::Fragment),
        ("http://h/a?b#", UriFault::Fragment),
        ("http://h?#", UriFault::Fragment),
        ("http://h/#%zz", UriFault::Fragment),
        ("http://h/%zz", UriFault::Escape { at: 9 }),
        ("http://h/%", UriFault::Escape { at: 9 }),
        ("http://h/%4", UriFault::Escape { at: 9 }),
        ("http://h/a%4g", UriFault::Escape { at: 10 }),
        ("http://h/%4?1", UriFault::Escape { at: 9 }),
        ("http://h/%41%", UriFault::Escape { at: 12 }),
        ("http://h/%%41", UriFault::Escape { at: 9 }),
        ("http://h/%2%35", UriFault::Escape { at: 9 }),
        ("http://h?%g0", UriFault::Escape { at: 9 }),
        ("http://h/a?b=%e", UriFault::Escape { at: 13 }),
        ("http://h/%4#", UriFault::Escape { at: 9 }),
        ("http://h/ ", UriFault::Syntax { at: 9 }),
        ("http://h/a b#", UriFault::Syntax { at: 10 }),
        ("http://h/[%", UriFault::Syntax { at: 9 }),
        ("http://h/]", UriFault::Syntax { at: 9 }),
        ("http://h/a^", UriFault::Syntax { at: 10 }),
        ("http://h/\\", UriFault::Syntax { at: 9 }),
        ("http://h/`", UriFault::Syntax { at: 9 }),
        ("http://h/<{|}>", UriFault::Syntax { at: 9 }),
        ("http://h/é", UriFault::Syntax { at: 9 }),
        ("http://h/?a[b]", UriFault::Syntax { at: 11 }),
        ("http://h?\"", UriFault::Syntax { at: 9 }),
        ("https://h:443/\n", UriFault::Syntax { at: 14 }),
    ] {
        assert!(rt; is_refused(rt.alloc(), text.as_bytes(), wanted), "{text}");
    }
}

#[test]
fn keeps_the_limit_before_and_after_the_steps(rt: HostRuntime) {
    // An empty path becomes one byte, and an empty port goes.
    for (front, length, end, wanted) in [
        ("http://h/", 8192, "", ""),
        ("http://", 8191, "", "/"),
        ("http://", 8191, ":", "/"),
        ("http://", 8188, "?%41", "/?A"),
    ] {
        assert!(rt;
            long_text_reads_as(rt.alloc(), front, length, end, wanted),
            "{front} {length}"
        );
    }
    for (front, length, end) in [
        ("http://h/", 8193, ""),
        ("ftp://u@h/#", 8193, ""),
        ("http://", 8192, ""),
        ("http://", 8191, "?"),
        ("http://", 8188, "?%2f"),
    ] {
        assert!(rt;
            long_text_is_too_long(rt.alloc(), front, length, end),
            "{front} {length}"
        );
    }
}

#[test]
fn shows_the_parts_of_a_uri(rt: HostRuntime) {
    for (text, wanted, query) in [
        (
            "HTTP://H:81/a/../b?c=%64",
            ["http", "h:81", "/b"],
            Some(b"c=d".as_slice()),
        ),
        ("https://h?", ["https", "h", "/"], Some(b"".as_slice())),
        ("http://h", ["http", "h", "/"], None),
    ] {
        assert!(rt; shows(rt.alloc(), text, wanted, query), "{text}");
    }
}

#[test]
fn names_places(rt: HostRuntime) {
    for (scheme, authority, wanted) in [
        ("https", "B.example:443", ("https", "b.example")),
        ("HTTP", "H:80", ("http", "h")),
        ("http", "h:8080", ("http", "h:8080")),
        ("http", "h:", ("http", "h")),
    ] {
        assert!(rt;
            is_place(rt.alloc(), scheme, authority, wanted),
            "{scheme} {authority}"
        );
    }
}

#[test]
fn names_the_faults_of_places(rt: HostRuntime) {
    for (scheme, authority, wanted) in [
        ("http", "h/a", UriFault::Syntax { at: 8 }),
        ("http", "h?", UriFault::Syntax { at: 8 }),
        ("https", "h?a/b", UriFault::Syntax { at: 9 }),
        ("http", "h:80/", UriFault::Syntax { at: 11 }),
        ("http", "", UriFault::Syntax { at: 7 }),
        ("http", "h b", UriFault::Syntax { at: 8 }),
        ("http://a", "b", UriFault::Syntax { at: 9 }),
        ("http", "h/%zz", UriFault::Escape { at: 9 }),
        ("http", "h#", UriFault::Fragment),
        ("http", "u@h", UriFault::Userinfo),
        ("http", "h:0", UriFault::Port),
        ("ftp", "h", UriFault::Scheme),
        ("", "h", UriFault::Scheme),
    ] {
        assert!(rt;
            is_no_place(rt.alloc(), scheme, authority, wanted),
            "{scheme} {authority}"
        );
    }
}

#[test]
fn moves_a_uri_to_a_place(rt: HostRuntime) {
    for (text, scheme, authority, wanted) in [
        (
            "http://h/a?b",
            "https",
            "B.example:443",
            "https://b.example/a?b",
        ),
        ("http://h:81/?", "http", "x:82", "http://x:82/?"),
        ("https://h", "http", "x", "http://x/"),
    ] {
        assert!(rt;
            moves_as(rt.alloc(), text, scheme, authority, wanted),
            "{text}"
        );
    }
    assert!(rt; !is_too_long_at(rt.alloc(), "i"));
    assert!(rt; is_too_long_at(rt.alloc(), "hi"));
}

#[test]
fn makes_the_uri_of_a_request(rt: HostRuntime) {
    for (host, target, wanted) in [
        ("h", "/v", "http://h/v"),
        ("h:1", "/", "http://h:1/"),
        ("h", "http://x/y", "http://x/y"),
        ("h", "*", "*"),
        ("h", "", ""),
    ] {
        assert!(rt; requests(rt.alloc(), host, target, wanted), "{target}");
    }
}

fn segments(alloc: Global, text: &str) -> Option<usize> {
    match read_uri(alloc, text.as_bytes()) {
        Ok(uri) => Some(uri.segment_count()),
        Err(_) => None,
    }
}

#[test]
fn counts_the_segments_of_a_path(rt: HostRuntime) {
    for (text, wanted) in [
        ("http://h", 1),
        ("http://h/?a/b", 1),
        ("http://h/v/1/s.ts", 3),
        ("http://h/v/1/", 3),
        ("http://h/a/../b", 1),
        ("http://h//a%2Fb", 2),
    ] {
        assert_eq!(rt; segments(rt.alloc(), text), Some(wanted), "{text}");
    }
}

#[test]
fn says_what_to_mend(rt: HostRuntime) -> Result<(), Fail> {
    for (fault, wanted) in [
        (
            UriFault::TooLong,
            "the URI is longer than 8192 bytes: shorten it",
        ),
        (UriFault::Scheme, "begin the URI with http:// or https://"),
        (
            UriFault::Escape { at: 9 },
            "write two hexadecimal digits behind the % at byte 9",
        ),
        (UriFault::NoMemory, "memory ran out"),
    ] {
        let told = format!(in rt.alloc(); "{fault}")?;
        assert_eq!(rt; told.as_str(), wanted);
    }
    assert!(rt; UriFault::NoMemory.is_memory());
    assert!(rt; !UriFault::TooLong.is_memory());
    Ok(())
}

#[test]
fn runs_the_example(rt: HostRuntime) -> Result<(), UriFault> {
    let alloc = rt.alloc();
    let uri = read_uri(alloc, b"HTTP://Example.com:80/%7ea/./b/../c?x")?;
    assert!(rt; uri.text() == b"http://example.com/~a/c?x".as_slice());
    assert!(rt; uri.path() == b"/~a/c".as_slice());
    let place = Place::new(alloc, b"https", b"CDN.example:8443")?;
    let moved = moved(alloc, &uri, &place)?;
    assert!(rt; moved.text() == b"https://cdn.example:8443/~a/c?x".as_slice());
    Ok(())
}
