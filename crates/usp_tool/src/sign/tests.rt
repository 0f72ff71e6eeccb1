//! The rows of `sign`, and what is signed through `check`, each through `run` over the forms in memory.
use crate::tests::{CONF, EXPRESSION, TOKEN, line, runs};
use std::alloc::{AllocError, Global};
use std::process::Abort;
use std::sync::Wait;
use std::test::Fail;
use std::thread::Threads;
use usp_base::Status;

// The configuration with room for one nonce.
const SMALL: &str =
    "{\"edge\":\"e\",\"scheme\":\"http\",\"keys\":[{\"kid\":\"k1\",\"issuer\":\"cp\",\"secret\":\
    \"AQEBAQEBAQEBAQEBAQEBAQEBAQEBAQEBAQEBAQEBAQE\"}],\"issuers\":[\"cp\"],\"audience\":[\"e\"],\
    \"sign_kid\":\"k1\",\"room\":1}";

// Whether `sign c.json k1` writes just this for the input, with this status.
fn signs<R: Threads + Wait + Sync + Abort + AllocGlobal>(
    rt: &R,
    input: &str,
    written: &str,
    status: Status,
) -> Result<bool, AllocError> {
    let (ended, text) = runs(rt, &["sign", "c.json", "k1"], CONF, input.as_bytes())?;
    Ok(ended == status && text.as_slice() == written.as_bytes())
}

#[test]
fn a_uri_is_signed_in_its_normal_form(rt: HostRuntime) -> Result<(), Fail> {
    let alloc = rt.alloc();
    let open = " {\"cdniuc\":\"regex:^http://h/\",\"exp\":100}\r\n";
    let rows: [(&str, &str, &str, &str); 5] = [
        (
            "http://h/v",
            open,
            "http://h/v?URISigningPackage=",
            EXPRESSION,
        ),
        (
            "HTTP://H:80/%76",
            open,
            "http://h/v?URISigningPackage=",
            EXPRESSION,
        ),
        (
            "http://h/v?a=b",
            open,
            "http://h/v?a=b&URISigningPackage=",
            EXPRESSION,
        ),
        (
            "http://h/v?",
            open,
            "http://h/v?&URISigningPackage=",
            EXPRESSION,
        ),
        (
            "http://h/v",
            " {\"cdniuc\":\"hash:\", \"exp\":100}",
            "http://h/v?URISigningPackage=",
            TOKEN,
        ),
    ];
    for (uri, claims, front, token) in rows {
        let input = line(alloc, uri, claims, "")?;
        let written = line(alloc, front, token, "\n")?;
        assert!(rt; signs(&rt, input.as_str(), written.as_str(), Status::Done)?);
    }
    Ok(())
}

#[test]
fn a_line_that_is_not_signed_is_refused(rt: HostRuntime) -> Result<(), Fail> {
    let alloc = rt.alloc();
    let rows: [&str; 8] = [
        "http://h/v {\"exp\":1}",
        "http://h/v",
        "",
        "http://h/%zz {\"cdniuc\":\"hash:x\"}",
        "http://h/v?URISigningPackage=x {\"cdniuc\":\"hash:x\"}",
        "http://h/v;URISigningPackage=%41 {\"cdniuc\":\"hash:x\"}",
        "http://h/v  {\"cdniuc\":\"hash:x\"",
        " {\"cdniuc\":\"hash:x\"}",
    ];
    for row in rows {
        let input = line(alloc, row, "\n", "")?;
        assert!(rt; signs(&rt, input.as_str(), "refused line 1\n", Status::Refused)?);
    }
    Ok(())
}

#[test]
fn what_is_signed_before_a_refused_line_stays(rt: HostRuntime) -> Result<(), Fail> {
    let alloc = rt.alloc();
    let input = "http://h/v {\"cdniuc\":\"regex:^http://h/\",\"exp\":100}\nx\n";
    let written = line(
        alloc,
        "http://h/v?URISigningPackage=",
        EXPRESSION,
        "\nrefused line 2\n",
    )?;
    assert!(rt; signs(&rt, input, written.as_str(), Status::Refused)?);
    assert!(rt; signs(&rt, "", "", Status::Done)?);
    Ok(())
}

#[test]
fn an_unknown_key_is_refused_before_the_input(rt: HostRuntime) -> Result<(), Fail> {
    let alloc = rt.alloc();
    let (status, text) = runs(&rt, &["sign", "c.json", "k9"], CONF, b"x\n")?;
    assert_eq!(rt; status, Status::Refused);
    assert_eq!(rt; text.as_slice(), b"refused key\n".as_slice());
    Ok(())
}

#[test]
fn a_signed_uri_has_at_most_8192_bytes(rt: HostRuntime) -> Result<(), Fail> {
    let alloc = rt.alloc();
    let rows: [(usize, Status); 2] = [(8057, Status::Done), (8058, Status::Refused)];
    for (count, expected) in rows {
        let mut input = String::from_str(alloc, "http://h/")?;
        for _ in 0..count {
            input.push('a')?;
        }
        input.push_str(" {\"cdniuc\":\"regex:a\"}")?;
        let (status, _) = runs(&rt, &["sign", "c.json", "k1"], CONF, input.as_bytes())?;
        assert_eq!(rt; status, expected);
    }
    Ok(())
}

// Puts the lines of `check` for what `sign` prints, one for each moment.
fn asks(alloc: Global, signed: &[u8], moments: &[&str]) -> Result<Vec<u8>, AllocError> {
    let mut input = Vec::new(alloc);
    for moment in moments {
        input.extend_from_slice(moment.as_bytes())?;
        input.push(b' ')?;
        input.extend_from_slice(signed)?;
    }
    Ok(input)
}

// Signs claims for `http://h/v`, and whether `check` writes just this for them at these moments.
fn checked<R: Threads + Wait + Sync + Abort + AllocGlobal>(
    rt: &R,
    conf: &str,
    claims: &str,
    moments: &[&str],
    written: &str,
) -> Result<(Status, bool), AllocError> {
    let alloc = rt.alloc();
    let input = line(alloc, "http://h/v ", claims, "\n")?;
    let (_, signed) = runs(rt, &["sign", "c.json", "k1"], conf, input.as_bytes())?;
    let lines = asks(alloc, &signed, moments)?;
    let (status, text) = runs(rt, &["check", "c.json"], conf, &lines)?;
    Ok((status, text.as_slice() == written.as_bytes()))
}

#[test]
fn a_nonce_is_taken_once_within_its_window(rt: HostRuntime) -> Result<(), Fail> {
    let alloc = rt.alloc();
    let rows: [(&str, &str, &[&str], &str, Status); 4] = [
        (
            CONF,
            "{\"cdniuc\":\"hash:\",\"jti\":\"n\",\"exp\":100}",
            &["50", "60"],
            "1 admitted http://h/v\n2 denied 17 Seen\n",
            Status::Denials,
        ),
        (
            CONF,
            "{\"cdniuc\":\"hash:\",\"jti\":\"n\",\"exp\":100}",
            &["50", "100", "99"],
            "1 admitted http://h/v\n2 denied 13 Expired\n3 denied 17 Seen\n",
            Status::Denials,
        ),
        (
            CONF,
            "{\"cdniuc\":\"hash:x\",\"jti\":\"n\",\"exp\":100}",
            &["50", "60"],
            "1 denied 15 Container\n2 denied 15 Container\n",
            Status::Denials,
        ),
        (
            SMALL,
            "{\"cdniuc\":\"hash:\",\"jti\":\"n\"}",
            &["50", "4503599627370495"],
            "1 admitted http://h/v\n2 denied 17 Seen\n",
            Status::Denials,
        ),
    ];
    for (conf, claims, moments, written, status) in rows {
        assert_eq!(rt;
            checked(&rt, conf, claims, moments, written)?,
            (status, true)
        );
    }
    Ok(())
}

#[test]
fn a_full_table_and_a_late_nonce_are_denied(rt: HostRuntime) -> Result<(), Fail> {
    let alloc = rt.alloc();
    let claims = "http://h/v {\"cdniuc\":\"hash:\",\"jti\":\"n\"}\n\
        http://h/v {\"cdniuc\":\"hash:\",\"jti\":\"m\",\"exp\":100}\n";
    let (_, signed) = runs(&rt, &["sign", "c.json", "k1"], SMALL, claims.as_bytes())?;
    let Some(end) = signed.iter().position(|b| *b == b'\n') else {
        return Err(Fail::from(AllocError));
    };
    let rows: [(&str, &str, &[u8]); 2] = [
        ("50", "60", b"1 admitted http://h/v\n2 denied 18 Room\n"),
        ("150", "60", b"1 admitted http://h/v\n2 denied 16 Late\n"),
    ];
    for (first, second, written) in rows {
        let mut lines = asks(alloc, &signed[..end + 1], &[first])?;
        lines.extend_from_slice(&asks(alloc, &signed[end + 1..], &[second])?)?;
        let (status, text) = runs(&rt, &["check", "c.json"], SMALL, &lines)?;
        assert_eq!(rt; status, Status::Denials);
        assert_eq!(rt; text.as_slice(), written);
    }
    Ok(())
}

#[test]
fn thousands_of_lines_are_signed_and_admitted(rt: HostRuntime) -> Result<(), Fail> {
    let alloc = rt.alloc();
    let mut input = String::new(alloc);
    let mut signed = String::new(alloc);
    let mut asked = String::new(alloc);
    let mut admitted = String::new(alloc);
    for number in 1..=4_000u64 {
        let digits = number.to_string(alloc)?;
        let uri = line(alloc, "http://h/v/", digits.as_str(), "")?;
        input.push_str(uri.as_str())?;
        input.push_str(" {\"cdniuc\":\"regex:^http://h/\",\"exp\":100}\n")?;
        let with_token = line(alloc, uri.as_str(), "?URISigningPackage=", EXPRESSION)?;
        signed.push_str(with_token.as_str())?;
        signed.push('\n')?;
        asked.push_str("50 ")?;
        asked.push_str(with_token.as_str())?;
        asked.push('\n')?;
        admitted.push_str(digits.as_str())?;
        admitted.push_str(" admitted ")?;
        admitted.push_str(uri.as_str())?;
        admitted.push('\n')?;
    }
    assert!(rt; signs(&rt, input.as_str(), signed.as_str(), Status::Done)?);
    let (status, text) = runs(&rt, &["check", "c.json"], CONF, asked.as_bytes())?;
    assert_eq!(rt; status, Status::Done);
    assert_eq!(rt; text.as_slice(), admitted.as_bytes());
    Ok(())
}
