//! Requests, each by the rule that denies it.
use super::samples::{
    FRONT, SECRET, claims_denied_by, denied_by, joined, judged, profile_of, sealed, sealed_under,
};
use crate::{Judged, Profile, Rule, segment_of};
use base64::engine::general_purpose::URL_SAFE_NO_PAD;
use std::alloc::Global;
use std::test::Fail;

const PAYLOAD: &str = "{\"cdniuc\":\"regex:^http://h/\",\"exp\":100}";

// The token of RFC 7515 appendix A.1 without its last letter, and its key.
const PUBLISHED: &str = "eyJ0eXAiOiJKV1QiLA0KICJhbGciOiJIUzI1NiJ9.\
     eyJpc3MiOiJqb2UiLA0KICJleHAiOjEzMDA4MTkzODAsDQogImh0dHA6Ly9leGFtcGxlLmNvbS9pc19yb290Ijp0cnVlfQ.\
     dBjftJeZ4CVP-mB92K27uhbUJU1p1r_wW1gFWFOEjX";

const PUBLISHED_KEY: &str =
    "AyM1SysPpbyDfgZld3umj1qzKObwVMkoqQ-EstJQLr_T-1qS0gZH75aKtMN3Yj0iPS4hcgUuTwjAzZr1Z9CAow";

#[test]
fn each_rule_has_its_number_and_name(rt: HostRuntime) -> Result<(), Fail> {
    let rows = [
        (Rule::Uri, 1, "Uri"),
        (Rule::Missing, 2, "Missing"),
        (Rule::Package, 3, "Package"),
        (Rule::Header, 4, "Header"),
        (Rule::Signature, 5, "Signature"),
        (Rule::Claims, 6, "Claims"),
        (Rule::Version, 7, "Version"),
        (Rule::Critical, 8, "Critical"),
        (Rule::Encrypted, 9, "Encrypted"),
        (Rule::Issuer, 10, "Issuer"),
        (Rule::Audience, 11, "Audience"),
        (Rule::NotBefore, 12, "NotBefore"),
        (Rule::Expired, 13, "Expired"),
        (Rule::Renewal, 14, "Renewal"),
        (Rule::Container, 15, "Container"),
        (Rule::Late, 16, "Late"),
        (Rule::Seen, 17, "Seen"),
        (Rule::Room, 18, "Room"),
    ];
    for (rule, number, name) in rows {
        assert_eq!(rt; rule.number(), number);
        assert_eq!(rt; rule.name(), name.as_bytes());
    }
    Ok(())
}

// The rule that denies a URI of a token, and of what stands before and behind it.
fn around(
    alloc: Global,
    profile: &Profile,
    front: &str,
    token: &str,
    back: &str,
) -> Result<Option<Rule>, Fail> {
    let uri = joined(alloc, &[front, token, back])?;
    denied_by(alloc, profile, &uri, None, 50)
}

#[test]
fn a_uri_is_read_and_its_package_found(rt: HostRuntime) -> Result<(), Fail> {
    let alloc = rt.alloc();
    let profile = profile_of(alloc, &SECRET, &["cp"], &["e"])?;
    let token = sealed(alloc, PAYLOAD.as_bytes())?;
    let rows = [
        (FRONT, "", None),
        ("HTTP://H:80/a/../v?URISigningPackage=", "", None),
        ("http://h/v;URISigningPackage=", "/w", None),
        ("http://h/v?a=1&URISigningPackage=", "&b=2", None),
        ("ftp://h/v?URISigningPackage=", "", Some(Rule::Uri)),
        (FRONT, "&URISigningPackage=x", None),
        (FRONT, "#", Some(Rule::Uri)),
        (FRONT, "%zz", Some(Rule::Uri)),
        ("http://h/v?XURISigningPackage=", "", Some(Rule::Missing)),
        ("http://h/v/URISigningPackage=", "", Some(Rule::Missing)),
        ("http://h/v?urisigningpackage=", "", Some(Rule::Missing)),
        (FRONT, "%41", Some(Rule::Package)),
        (FRONT, ".x", Some(Rule::Package)),
        (
            "http://h/v?URISigningPackage=x&URISigningPackage=",
            "",
            Some(Rule::Package),
        ),
        ("http://h/v?URISigningPackage=;", "", Some(Rule::Package)),
        ("http://h?URISigningPackage=", "@x", Some(Rule::Container)),
        ("http://i/v?URISigningPackage=", "", Some(Rule::Container)),
    ];
    for (front, back, expected) in rows {
        assert_eq!(rt;
            around(alloc, &profile, front, token.as_str(), back)?,
            expected
        );
    }
    Ok(())
}

// Adds a byte until the text has that length.
fn fill(text: &mut Vec<u8>, byte: u8, length: usize) -> Result<(), Fail> {
    for _ in text.len()..length {
        text.push(byte)?;
    }
    Ok(())
}

// The rule that denies a URI of that length with its package.
fn uri_of_length(alloc: Global, profile: &Profile, length: usize) -> Result<Option<Rule>, Fail> {
    let token = sealed(alloc, PAYLOAD.as_bytes())?;
    let mut uri = joined(alloc, &[FRONT, token.as_str(), "&"])?;
    fill(&mut uri, b'a', length)?;
    denied_by(alloc, profile, &uri, None, 50)
}

// The same of a cookie's token of that length, which no key verifies.
fn token_of_length(alloc: Global, profile: &Profile, length: usize) -> Result<Option<Rule>, Fail> {
    let mut token = joined(alloc, &["eyJhbGciOiJIUzI1NiIsImtpZCI6ImsxIn0.."])?;
    fill(&mut token, b'A', length)?;
    denied_by(alloc, profile, b"http://h/v", Some(&token), 50)
}

// The same of a payload of that length.
fn payload_of_length(
    alloc: Global,
    profile: &Profile,
    length: usize,
) -> Result<Option<Rule>, Fail> {
    let mut payload = joined(alloc, &[PAYLOAD])?;
    fill(&mut payload, b' ', length)?;
    let token = sealed(alloc, &payload)?;
    around(alloc, profile, FRONT, token.as_str(), "")
}

// A URI counts with its package.
#[test]
fn what_is_too_long_is_denied(rt: HostRuntime) -> Result<(), Fail> {
    let alloc = rt.alloc();
    let profile = profile_of(alloc, &SECRET, &["cp"], &["e"])?;
    assert_eq!(rt; uri_of_length(alloc, &profile, 8192)?, None);
    assert_eq!(rt; uri_of_length(alloc, &profile, 8193)?, Some(Rule::Uri));
    assert_eq!(rt;
        token_of_length(alloc, &profile, 8192)?,
        Some(Rule::Signature)
    );
    assert_eq!(rt;
        token_of_length(alloc, &profile, 8193)?,
        Some(Rule::Package)
    );
    assert_eq!(rt; payload_of_length(alloc, &profile, 4096)?, None);
    assert_eq!(rt;
        payload_of_length(alloc, &profile, 4097)?,
        Some(Rule::Claims)
    );
    Ok(())
}

// The rule that denies a URI with a package or without one, and a cookie's token.
fn with_cookie(
    alloc: Global,
    profile: &Profile,
    package: Option<&str>,
    cookie: Option<&str>,
) -> Result<Option<Rule>, Fail> {
    let uri = match package {
        None => joined(alloc, &["http://h/v"])?,
        Some(package) => joined(alloc, &[FRONT, package])?,
    };
    let cookie = cookie.map(|text| text.as_bytes());
    denied_by(alloc, profile, &uri, cookie, 50)
}

#[test]
fn a_cookie_brings_the_token_where_the_uri_has_no_package(rt: HostRuntime) -> Result<(), Fail> {
    let alloc = rt.alloc();
    let profile = profile_of(alloc, &SECRET, &["cp"], &["e"])?;
    let token = sealed(alloc, PAYLOAD.as_bytes())?;
    let late = sealed(alloc, b"{\"cdniuc\":\"regex:^http://h/\",\"exp\":50}")?;
    let good = token.as_str();
    let rows = [
        (None, Some(good), None),
        (None, None, Some(Rule::Missing)),
        (None, Some("x"), Some(Rule::Package)),
        (None, Some(""), Some(Rule::Package)),
        (None, Some(late.as_str()), Some(Rule::Expired)),
        (Some(good), Some(late.as_str()), None),
        (Some(good), Some("x"), None),
        (Some(late.as_str()), Some(good), Some(Rule::Expired)),
        (Some("x"), Some(good), Some(Rule::Package)),
        (Some(""), Some(good), Some(Rule::Package)),
        (Some("x%41"), Some(good), Some(Rule::Package)),
        (Some("%41"), Some(good), Some(Rule::Package)),
    ];
    for (package, cookie, expected) in rows {
        assert_eq!(rt; with_cookie(alloc, &profile, package, cookie)?, expected);
    }
    Ok(())
}

#[test]
fn a_header_names_the_algorithm_and_perhaps_a_key(rt: HostRuntime) -> Result<(), Fail> {
    let alloc = rt.alloc();
    let profile = profile_of(alloc, &SECRET, &["cp"], &["e"])?;
    let rows = [
        ("{\"alg\":\"HS256\"}", None),
        ("{\"alg\":\"HS256\",\"kid\":\"k1\",\"typ\":\"JWT\"}", None),
        ("{\"alg\":\"HS256\",\"kid\":\"k0\"}", Some(Rule::Signature)),
        ("{\"alg\":\"HS256\",\"kid\":\"K1\"}", Some(Rule::Signature)),
        ("{\"alg\":\"HS256\",\"kid\":1}", Some(Rule::Header)),
        ("{\"alg\":\"none\"}", Some(Rule::Header)),
        ("{\"alg\":\"hs256\"}", Some(Rule::Header)),
        ("{\"kid\":\"k1\"}", Some(Rule::Header)),
        ("{\"alg\":\"HS256\",\"crit\":[]}", Some(Rule::Header)),
        ("{\"alg\":\"HS256\",\"zip\":\"DEF\"}", Some(Rule::Header)),
        ("{\"alg\":\"HS256\",\"enc\":null}", Some(Rule::Header)),
        ("", Some(Rule::Header)),
    ];
    for (header, expected) in rows {
        let token = sealed_under(alloc, header, PAYLOAD)?;
        assert_eq!(rt;
            around(alloc, &profile, FRONT, token.as_str(), "")?,
            expected,
            "{header}"
        );
    }
    Ok(())
}

// Its claims have no container.
#[test]
fn the_last_letter_of_a_published_token_counts(rt: HostRuntime) -> Result<(), Fail> {
    let alloc = rt.alloc();
    let secret = URL_SAFE_NO_PAD.decode(alloc, PUBLISHED_KEY.as_bytes())?;
    let profile = profile_of(alloc, &secret, &["joe"], &["e"])?;
    let rows = [
        ("k", Rule::Claims),
        ("l", Rule::Package),
        ("g", Rule::Signature),
    ];
    for (letter, expected) in rows {
        assert_eq!(rt;
            around(alloc, &profile, FRONT, PUBLISHED, letter)?,
            Some(expected),
        );
    }
    Ok(())
}

#[test]
fn a_payload_is_a_claim_set(rt: HostRuntime) -> Result<(), Fail> {
    let alloc = rt.alloc();
    let profile = profile_of(alloc, &SECRET, &["cp"], &["e"])?;
    let rows = [
        ("{\"cdniuc\":\"regex:^http://h/\"}", None),
        (" {\"y\":[],\"cdniuc\":\"regex:^http://h/\"}\n", None),
        ("{\"cdniuc\":\"http://h/\"}", Some(Rule::Container)),
        ("{\"exp\":100}", Some(Rule::Claims)),
        ("{\"cdniuc\":1}", Some(Rule::Claims)),
        (
            "{\"cdniuc\":\"regex:^http://h/\",\"exp\":1e2}",
            Some(Rule::Claims),
        ),
        (
            "{\"cdniuc\":\"regex:^http://h/\",\"y\":1,\"y\":1}",
            Some(Rule::Claims),
        ),
        ("[]", Some(Rule::Claims)),
        ("", Some(Rule::Claims)),
    ];
    for (payload, expected) in rows {
        let token = sealed(alloc, payload.as_bytes())?;
        assert_eq!(rt;
            around(alloc, &profile, FRONT, token.as_str(), "")?,
            expected,
            "{payload}"
        );
    }
    Ok(())
}

#[test]
fn the_claims_have_what_each_rule_wants(rt: HostRuntime) -> Result<(), Fail> {
    let alloc = rt.alloc();
    let profile = profile_of(alloc, &SECRET, &["cp", "dn"], &["d", "e"])?;
    let rows = [
        (",\"cdniv\":1", 50, None),
        (",\"cdniv\":2", 50, Some(Rule::Version)),
        (",\"cdniv\":0", 50, Some(Rule::Version)),
        (",\"sub\":null", 50, Some(Rule::Encrypted)),
        (",\"cdniip\":\"a\"", 50, Some(Rule::Encrypted)),
        (",\"iss\":\"cp\"", 50, None),
        (",\"iss\":\"dn\"", 50, Some(Rule::Issuer)),
        (",\"iss\":\"c\"", 50, Some(Rule::Issuer)),
        (",\"aud\":\"e\"", 50, None),
        (",\"aud\":\"f\"", 50, Some(Rule::Audience)),
        (",\"aud\":[\"f\",\"e\"]", 50, None),
        (",\"aud\":[\"f\",\"g\"]", 50, Some(Rule::Audience)),
        (",\"aud\":[]", 50, Some(Rule::Audience)),
        (",\"nbf\":100", 99, Some(Rule::NotBefore)),
        (",\"nbf\":100", 100, None),
        (",\"exp\":100", 99, None),
        (",\"exp\":100", 100, Some(Rule::Expired)),
        (",\"exp\":0", 0, Some(Rule::Expired)),
        (",\"cdnistt\":0", 50, None),
        (",\"cdnistt\":1", 50, Some(Rule::Renewal)),
        (",\"cdnistt\":1,\"cdniets\":0", 50, None),
        (",\"cdnistt\":2,\"cdniets\":30", 50, Some(Rule::Renewal)),
        (",\"cdniets\":30", 50, None),
    ];
    for (claims, moment, expected) in rows {
        assert_eq!(rt;
            claims_denied_by(alloc, &profile, claims, moment)?,
            expected,
            "{claims}"
        );
    }
    let others = profile_of(alloc, &SECRET, &["dn"], &[])?;
    assert_eq!(rt; claims_denied_by(alloc, &others, "", 50)?, None);
    assert_eq!(rt;
        claims_denied_by(alloc, &others, ",\"iss\":\"cp\"", 50)?,
        Some(Rule::Issuer)
    );
    assert_eq!(rt;
        claims_denied_by(alloc, &others, ",\"aud\":\"e\"", 50)?,
        Some(Rule::Audience)
    );
    Ok(())
}

#[test]
fn each_claim_that_is_critical_is_understood(rt: HostRuntime) -> Result<(), Fail> {
    let alloc = rt.alloc();
    let profile = profile_of(alloc, &SECRET, &["cp"], &["e"])?;
    let denied = Some(Rule::Critical);
    let rows = [
        (",\"cdnicrit\":\"x\",\"x\":\"yes\"", None),
        (",\"cdnicrit\":\" x\",\"x\":\"yes\"", None),
        (",\"cdnicrit\":\"\\tx \",\"x\":\"yes\"", None),
        (",\"cdnicrit\":\"x\"", denied),
        (",\"cdnicrit\":\"exp\",\"exp\":100", denied),
        (",\"cdnicrit\":\"\"", denied),
        (",\"cdnicrit\":\"x,x\",\"x\":\"yes\"", denied),
        (",\"cdnicrit\":\"x, x\",\"x\":\"yes\"", denied),
        (",\"cdnicrit\":\"x\",\"x\":\"no\"", denied),
        (",\"cdnicrit\":\"x,\",\"x\":\"yes\"", denied),
        (",\"cdnicrit\":\"x,y\",\"x\":\"yes\",\"y\":\"yes\"", denied),
        (",\"cdnicrit\":\"\\nx\",\"x\":\"yes\"", denied),
        (",\"cdnicrit\":\"X\",\"X\":\"yes\"", denied),
    ];
    for (claims, expected) in rows {
        assert_eq!(rt;
            claims_denied_by(alloc, &profile, claims, 50)?,
            expected,
            "{claims}"
        );
    }
    Ok(())
}

#[test]
fn of_two_broken_rules_the_earlier_is_named(rt: HostRuntime) -> Result<(), Fail> {
    let alloc = rt.alloc();
    let profile = profile_of(alloc, &SECRET, &["cp"], &["e"])?;
    let rows = [
        (",\"cdniv\":2,\"cdnicrit\":\"y\"", Rule::Version),
        (",\"cdnicrit\":\"y\",\"sub\":1", Rule::Critical),
        (",\"sub\":1,\"iss\":\"f\"", Rule::Encrypted),
        (",\"iss\":\"f\",\"aud\":\"f\"", Rule::Issuer),
        (",\"aud\":\"f\",\"nbf\":100", Rule::Audience),
        (",\"nbf\":100,\"exp\":40", Rule::NotBefore),
        (",\"exp\":40,\"cdnistt\":2", Rule::Expired),
    ];
    for (claims, expected) in rows {
        assert_eq!(rt;
            claims_denied_by(alloc, &profile, claims, 50)?,
            Some(expected),
            "{claims}"
        );
    }
    let token = sealed(alloc, b"{\"cdniuc\":\"regex:^x\",\"cdnistt\":2}")?;
    assert_eq!(rt;
        around(alloc, &profile, FRONT, token.as_str(), "")?,
        Some(Rule::Renewal)
    );
    Ok(())
}

// Whether an ask passes with this content and token, under the second key.
fn is_told(judged: &Judged<'_>, content: &[u8], token: &[u8]) -> bool {
    match judged {
        Judged::Denied(_) => false,
        Judged::Passed {
            content: told,
            token: text,
            claims,
            key,
        } => {
            told.text() == content && text.text() == token && claims.exp() == Some(100) && *key == 1
        }
    }
}

#[test]
fn what_passes_is_told(rt: HostRuntime) -> Result<(), Fail> {
    let alloc = rt.alloc();
    let profile = profile_of(alloc, &SECRET, &["cp"], &["e"])?;
    let content = b"http://h/v?b=2";
    let segment = String::from_utf8(segment_of(content).to_vec(alloc)?)?;
    let payload = joined(
        alloc,
        &["{\"exp\": 100,\"cdniuc\":\"hash:", segment.as_str(), "\"}"],
    )?;
    let token = sealed(alloc, &payload)?;
    let uri = joined(
        alloc,
        &["HTTP://h:80/v?URISigningPackage=", token.as_str(), "&b=2"],
    )?;
    let by_uri = judged(alloc, &profile, &uri, None, 50)?;
    assert!(rt; is_told(&by_uri, content, token.as_bytes()));
    let by_cookie = judged(
        alloc,
        &profile,
        b"http://h/./v?b=%32",
        Some(token.as_bytes()),
        50,
    )?;
    assert!(rt; is_told(&by_cookie, content, token.as_bytes()));
    Ok(())
}
