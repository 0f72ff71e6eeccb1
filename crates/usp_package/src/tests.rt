//! Packages that are found and put in, with what is left worked out by hand.
use super::*;
use std::alloc::Global;
use std::test::*;
use usp_uri::read_uri;

fn carries(uri: &str, wanted: &str, front: &str, back: &str) -> bool {
    let Some(name) = AttrName::new(b"token") else {
        return false;
    };
    match find(&name, uri.as_bytes()) {
        Found::At {
            token,
            before,
            after,
        } => {
            token == wanted.as_bytes() && before == front.as_bytes() && after == back.as_bytes()
        }
        _ => false,
    }
}

fn is_bad(uri: &str, wanted: usize) -> bool {
    let Some(name) = AttrName::new(b"token") else {
        return false;
    };
    match find(&name, uri.as_bytes()) {
        Found::Bad { at } => at == wanted,
        _ => false,
    }
}

fn embeds_as(alloc: Global, uri: &str, wanted: &str) -> bool {
    let Some(name) = AttrName::new(b"token") else {
        return false;
    };
    let Ok(uri) = read_uri(alloc, uri.as_bytes()) else {
        return false;
    };
    match find(&name, uri.text()) {
        Found::None => match embed(alloc, &name, &uri, b"J.J.J") {
            Ok(text) => text.as_slice() == wanted.as_bytes(),
            Err(_) => false,
        },
        _ => false,
    }
}

#[test]
fn cuts_the_first_package_out(rt: HostRuntime) {
    for (uri, token, before, after) in [
        (
            "http://h/a?come=data&token=J.J.J&other=data",
            "J.J.J",
            "http://h/a?come=data&",
            "other=data",
        ),
        ("http://h/a?token=J.J.J", "J.J.J", "http://h/a", ""),
        ("http://h/a?&token=J.J.J", "J.J.J", "http://h/a?", ""),
        (
            "http://h/a;token=J.J.J/b?token=K.K.K",
            "J.J.J",
            "http://h/a",
            "/b?token=K.K.K",
        ),
        (
            "http://h/a;token=J.J.J;x=1/c",
            "J.J.J",
            "http://h/a;",
            "x=1/c",
        ),
        ("http://h/a;token=J-_9", "J-_9", "http://h/a", ""),
        ("http://h?token=J@x", "J", "http://h", "@x"),
        ("http://h/;token=/b", "", "http://h/", "/b"),
        ("http://h/a?token=", "", "http://h/a", ""),
        ("http://h/a?token=J#f", "J", "http://h/a", "#f"),
        ("http://h/a?token=J,b", "J", "http://h/a?", "b"),
        ("http://h/a?token=I&token=J", "I", "http://h/a?", "token=J"),
        ("x?token=I://h/a?token=J", "J", "x?token=I://h/a", ""),
        ("http://h;token=I/?token=J", "J", "http://h;token=I/", ""),
        ("http://h/a&token=I?token=J", "J", "http://h/a&token=I", ""),
        (
            "http://h/a?;token=I&token=J",
            "J",
            "http://h/a?;token=I",
            "",
        ),
        (
            "http://h/a?b?token=I&token=J",
            "J",
            "http://h/a?b?token=I",
            "",
        ),
        (
            "http://h/a?xtoken=I&token=J&",
            "J",
            "http://h/a?xtoken=I&",
            "",
        ),
    ] {
        assert!(rt; carries(uri, token, before, after), "{uri}");
    }
}

#[test]
fn tells_what_is_no_package(rt: HostRuntime) -> Result<(), Fail> {
    for (uri, at) in [
        ("http://h/a;token=J.J.J%41", 22),
        ("http://h/a?token=J ", 18),
        ("http://h/a?token=%", 17),
        ("http://h/a?token=~&token=J", 17),
        ("http://h/a?token=Jé", 18),
    ] {
        assert!(rt; is_bad(uri, at), "{uri}");
    }
    let name = AttrName::new(b"token").ok_or("a name")?;
    for uri in [
        "",
        "token=J",
        "/a?token=J",
        "http:/h/a?token=J",
        "http://h/v",
        "http://h/a#?token=J",
        "http://h/a?b#&token=J",
        "http://h/a?Token=J",
        "http://h/a?tokens=J",
        "http://h/a?token",
        "http://h/a;tok",
    ] {
        assert!(rt; matches!(find(&name, uri.as_bytes()), Found::None), "{uri}");
    }
    Ok(())
}

#[test]
fn takes_names_of_1_to_64_letters(rt: HostRuntime) {
    let longest = "aaaaaaaaaaaaaaaaaaaaaaaaaaaaaaaaaaaaaaaaaaaaaaaaaaaaaaaaaaaaaaaa";
    for text in ["URISigningPackage", "-", "_9", longest] {
        let same = match AttrName::new(text.as_bytes()) {
            Some(name) => name.text() == text.as_bytes(),
            None => false,
        };
        assert!(rt; same, "{text}");
    }
    let longer = "aaaaaaaaaaaaaaaaaaaaaaaaaaaaaaaaaaaaaaaaaaaaaaaaaaaaaaaaaaaaaaaaa";
    for text in ["", "a b", "a.b", "a=", "é", longer] {
        assert!(rt; AttrName::new(text.as_bytes()).is_none(), "{text}");
    }
}

#[test]
fn puts_a_package_in_and_a_content_together(rt: HostRuntime) -> Result<(), Fail> {
    for (uri, wanted) in [
        ("http://h/a?", "http://h/a?&token=J.J.J"),
        ("http://h/v", "http://h/v?token=J.J.J"),
        ("http://h/v?x=1", "http://h/v?x=1&token=J.J.J"),
    ] {
        assert!(rt; embeds_as(rt.alloc(), uri, wanted), "{uri}");
    }
    let content = concatenate(rt.alloc(), b"http://h/a", b"/b")
        .ok()
        .ok_or("a text")?;
    assert_eq!(rt; content.as_slice(), b"http://h/a/b".as_slice());
    Ok(())
}

#[test]
fn runs_the_example(rt: HostRuntime) -> Result<(), Fail> {
    let name = AttrName::new(b"token").ok_or("a name")?;
    match find(&name, b"http://h/v?token=e.y.J&t=1") {
        Found::At {
            token,
            before,
            after,
        } => {
            assert!(rt; token == b"e.y.J".as_slice());
            let content = concatenate(rt.alloc(), before, after).ok().ok_or("a text")?;
            assert!(rt; content.as_slice() == b"http://h/v?t=1".as_slice());
        }
        _ => return Err("a package".into()),
    }
    Ok(())
}
