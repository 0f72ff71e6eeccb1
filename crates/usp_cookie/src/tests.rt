use super::*;
use std::alloc::Global;
use std::test::*;
use usp_jws::{Token, split};
use usp_package::AttrName;
use usp_uri::read_uri;

#[test]
fn finds_the_first_pair_of_a_name(rt: HostRuntime) -> Result<(), Fail> {
    let name = AttrName::new(b"URISigningPackage").ok_or("a name")?;
    for (value, wanted) in [
        ("a=b; URISigningPackage=J.J.J ;c=d", Some("J.J.J")),
        ("URISigningPackage=J.J.J", Some("J.J.J")),
        ("a=b;\t URISigningPackage=J.J.J\t", Some("J.J.J")),
        ("URISigningPackage=J; URISigningPackage=K", Some("J")),
        ("URISigningPackage; URISigningPackage=K", Some("K")),
        ("URISigningPackage=a=b", Some("a=b")),
        ("URISigningPackage=", Some("")),
        (";;URISigningPackage=J;", Some("J")),
        ("xURISigningPackage=J", None),
        ("URISigningPackagex=J", None),
        ("urisigningpackage=J", None),
        ("URISigningPackage =J", None),
        ("a=URISigningPackage=J", None),
        ("a=b; c", None),
        ("", None),
    ] {
        assert!(rt;
            token_of(&name, value.as_bytes()) == wanted.map(|text| text.as_bytes()),
            "{value}"
        );
    }
    Ok(())
}

fn has_path(alloc: Global, uri: &str, depth: u64, wanted: &str) -> bool {
    let Ok(uri) = read_uri(alloc, uri.as_bytes()) else {
        return false;
    };
    match cookie_path(alloc, &uri, depth) {
        Ok(path) => path.as_slice() == wanted.as_bytes(),
        Err(_) => false,
    }
}

#[test]
fn keeps_leading_segments_of_a_path(rt: HostRuntime) {
    for (uri, depth, wanted) in [
        ("http://h/v/1/s.ts", 0, "/"),
        ("http://h/v/1/s.ts", 1, "/v"),
        ("http://h/v/1/s.ts", 2, "/v/1"),
        ("http://h/v/1/s.ts", 3, "/v/1"),
        ("http://h/v/1/s.ts", u64::MAX, "/v/1"),
        ("http://h/s.ts", 1, "/"),
        ("http://h", 1, "/"),
        ("http://h/v/", 3, "/v"),
        ("http://h//a/b", 1, "/"),
        ("http://h//a/b", 2, "//a"),
        ("http://h/a;x/b/c", 2, "/"),
        ("http://h/a/b;/c/d", 3, "/a"),
        ("http://h/a/b?c/d", 2, "/a"),
    ] {
        assert!(rt; has_path(rt.alloc(), uri, depth, wanted), "{uri} {depth}");
    }
}

/// The token of RFC 7515 appendix A.1.
const TOKEN: &[u8] = b"eyJ0eXAiOiJKV1QiLA0KICJhbGciOiJIUzI1NiJ9.\
     eyJpc3MiOiJqb2UiLA0KICJleHAiOjEzMDA4MTkzODAsDQogImh0dHA6Ly9leGFtcGxlLmNvbS9pc19yb290Ijp0cnVlfQ.\
     dBjftJeZ4CVP-mB92K27uhbUJU1p1r_wW1gFWFOEjXk";

#[test]
fn writes_the_field_that_stores_a_token(rt: HostRuntime) -> Result<(), Fail> {
    let alloc = rt.alloc();
    let name = AttrName::new(b"URISigningPackage").ok_or("a name")?;
    let parts = split(TOKEN).ok().ok_or("a token")?;
    let token = Token::of(alloc, &parts).ok().ok_or("memory")?;
    let text = set_cookie(alloc, &name, &token, b"/v")
        .ok()
        .ok_or("memory")?;
    let mut wanted = Vec::new(alloc);
    wanted.extend_from_slice(b"URISigningPackage=")?;
    wanted.extend_from_slice(TOKEN)?;
    wanted.extend_from_slice(b"; Path=/v")?;
    assert!(rt; text.as_slice() == wanted.as_slice());
    assert!(rt; token_of(&name, &text) == Some(TOKEN));
    Ok(())
}

// What a jar gives for a request, after some Set-Cookie values of answers to requests.
fn given(
    alloc: Global,
    stores: &[(&str, &str, &str)],
    authority: &str,
    path: &str,
) -> Result<Option<String>, NoMemory> {
    let mut jar = Jar::empty(alloc);
    for (authority, path, value) in stores {
        jar.store(authority.as_bytes(), path.as_bytes(), value.as_bytes())?;
    }
    match jar.header_for(alloc, authority.as_bytes(), path.as_bytes())? {
        Some(header) => Ok(String::from_utf8(header).ok()),
        None => Ok(None),
    }
}

#[test]
fn a_cookie_goes_with_the_paths_that_its_own_covers(rt: HostRuntime) -> Result<(), Fail> {
    for (own, path, goes) in [
        ("/v", "/v/1", true),
        ("/v", "/v", true),
        ("/v", "/vx", false),
        ("/v", "/", false),
        ("/v", "/V", false),
        ("/v", "/v/", true),
        ("/v/", "/v/1", true),
        ("/v/", "/v", false),
        ("/v/", "/v//", true),
        ("/v/1", "/v/12", false),
        ("/", "/", true),
        ("/", "/any/where", true),
        ("/v/1", "/w/1", false),
    ] {
        let mut value = String::new(rt.alloc());
        value.push_str("URISigningPackage=J.J.J; Path=")?;
        value.push_str(own)?;
        let found = given(rt.alloc(), &[("h", "/", &value)], "h", path)?;
        let wanted = if goes {
            Some("URISigningPackage=J.J.J")
        } else {
            None
        };
        assert!(rt; found.as_deref() == wanted, "{own} for {path}");
    }
    Ok(())
}

#[test]
fn a_jar_reads_the_pair_and_the_last_path(rt: HostRuntime) -> Result<(), Fail> {
    // Each value is set by an answer for `/v/1/s.ts`, and the jar is asked for two paths.
    for (value, below, elsewhere) in [
        ("a=1", Some("a=1"), None),
        ("a=1; Path=/", Some("a=1"), Some("a=1")),
        ("a=1;path=/", Some("a=1"), Some("a=1")),
        ("a=1; PATH = / ; Secure", Some("a=1"), Some("a=1")),
        ("a=1; Path=/w; Path=/", Some("a=1"), Some("a=1")),
        ("a=1; Path=/; Path=/w", None, Some("a=1")),
        ("a=1; Path=/; Path=w", Some("a=1"), None),
        ("a=1; Path=/; Path", Some("a=1"), None),
        ("a=1; Path=/; Path=", Some("a=1"), None),
        ("a=1; Path=/w=1", None, None),
        ("a=1; xPath=/", Some("a=1"), None),
        ("a=1; Domain=x; Max-Age=0; HttpOnly", Some("a=1"), None),
        (" a\t=\t1 2 ", Some("a=1 2"), None),
        ("a=b=c", Some("a=b=c"), None),
        ("a=", Some("a="), None),
        ("=1; Path=/", None, None),
        (" =1", None, None),
        ("a", None, None),
        ("", None, None),
        ("; a=1", None, None),
    ] {
        let stores = [("h", "/v/1/s.ts", value)];
        let found = given(rt.alloc(), &stores, "h", "/v/1/t.ts")?;
        assert!(rt; found.as_deref() == below, "{value} below");
        let found = given(rt.alloc(), &stores, "h", "/w")?;
        assert!(rt; found.as_deref() == elsewhere, "{value} elsewhere");
    }
    Ok(())
}

#[test]
fn a_jar_keeps_one_cookie_of_a_name_and_gives_longer_paths_first(
    rt: HostRuntime,
) -> Result<(), Fail> {
    let rows: [(&[(&str, &str, &str)], &str, &str, Option<&str>); 9] = [
        (&[], "h", "/", None),
        (
            &[("h", "/", "a=1"), ("h", "/", "b=2"), ("h", "/x", "a=3")],
            "h",
            "/",
            Some("a=3; b=2"),
        ),
        (
            &[("h", "/", "a=1; Path=/"), ("h", "/", "a=2; Path=/v")],
            "h",
            "/v",
            Some("a=2; a=1"),
        ),
        (
            &[
                ("h", "/", "c=1; Path=/"),
                ("h", "/", "b=2; Path=/v/1"),
                ("h", "/", "a=3; Path=/v"),
                ("h", "/", "d=4; Path=/v/"),
                ("h", "/", "e=5; Path=/v/1"),
            ],
            "h",
            "/v/1/s.ts",
            Some("b=2; e=5; d=4; a=3; c=1"),
        ),
        (&[("h", "/", "a=1")], "i", "/", None),
        (&[("h", "/", "a=1")], "H", "/", None),
        (&[("h", "/", "a=1")], "h:80", "/", None),
        (
            &[("h", "/", "a=1"), ("i", "/", "a=2")],
            "h",
            "/",
            Some("a=1"),
        ),
        (
            &[("h", "", "a=1"), ("h", "x", "b=2"), ("h", "/s", "c=3")],
            "h",
            "/",
            Some("a=1; b=2; c=3"),
        ),
    ];
    for (stores, authority, path, wanted) in rows {
        let found = given(rt.alloc(), stores, authority, path)?;
        assert!(rt;
            found.as_deref() == wanted,
            "{wanted:?} for {authority} {path}"
        );
    }
    Ok(())
}

#[test]
fn a_jar_drops_its_first_cookie_for_the_65th(rt: HostRuntime) -> Result<(), Fail> {
    let alloc = rt.alloc();
    let mut jar = Jar::empty(alloc);
    for n in 0..MAX_COOKIES {
        let value = format!(in alloc; "n{n}=; Path=/{n}")?;
        jar.store(b"h", b"/", value.as_bytes())?;
    }
    jar.store(b"h", b"/", b"n5=again; Path=/5")?;
    assert!(rt; jar.header_for(alloc, b"h", b"/0")?.is_some());
    jar.store(b"h", b"/", b"last=; Path=/64")?;
    assert!(rt; jar.header_for(alloc, b"h", b"/0")?.is_none());
    for (path, wanted) in [
        ("/1", "n1="),
        ("/5", "n5=again"),
        ("/63", "n63="),
        ("/64", "last="),
    ] {
        let found = jar
            .header_for(alloc, b"h", path.as_bytes())?
            .ok_or("a cookie")?;
        assert!(rt; found.as_slice() == wanted.as_bytes(), "{path}");
    }
    Ok(())
}
