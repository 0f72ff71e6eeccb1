//! One connection over the forms in memory.
mod scenes;
mod seats;

use crate::{End, Note, Verdict};
use scenes::{
    BAD, CALM, EXPIRED, METHOD, NO_ANSWER, OK, SEEN, Scene, get, get_by_cookie, joined, repeated,
    run, sealed, sealed_for_route,
};
use std::test::Fail;
use usp_nonce::{Answer, Turned};
use usp_rules::Rule;

const J1: &str = "{\"cdniuc\":\"regex:^http://h/\",\"exp\":100}";

const ONCE: &str = "{\"cdniuc\":\"regex:^http://h/\",\"jti\":\"n\"}";

const OTHER: &str = "{\"cdniuc\":\"regex:^http://h/\",\"jti\":\"o\"}";

const RENEWED: &str =
    "{\"cdniuc\":\"regex:^http://h/\",\"exp\":60,\"cdnistt\":1,\"cdniets\":30,\"cdnistd\":1}";

const NEXT: &str =
    "{\"cdniuc\":\"regex:^http://h/\",\"exp\":80,\"cdnistt\":1,\"cdniets\":30,\"cdnistd\":1}";

const SENT: &str = "{\"cdniuc\":\"regex:^https?://\",\"jti\":\"n\"}";

// Three requests and a cut one, as one connection, cut after each byte or not at all.
#[test]
fn serves_heads_however_they_are_cut(rt: HostRuntime) -> Result<(), Fail> {
    let alloc = rt.alloc();
    let head = get(alloc, "/v", J1)?;
    let bytes = joined(alloc, &[&head, &head, &head, "GET /v"])?;
    for (moment, reply) in [(50, OK), (100, EXPIRED)] {
        let wanted = joined(alloc, &[reply, reply, reply, BAD])?;
        for piece in 1..bytes.len() + 1 {
            let scene = Scene {
                moment,
                piece,
                ..CALM
            };
            let ran = run(alloc, scene, &bytes)?;
            assert!(rt;
                ran.text.as_slice() == wanted.as_bytes(),
                "{piece} at {moment}"
            );
            assert!(rt; ran.end == End::CutShort);
            assert_eq!(rt; ran.notes.len(), 3);
        }
    }
    Ok(())
}

// Each row has the bytes, what is written, the end, and the number of notes.
#[test]
fn replies_to_each_head(rt: HostRuntime) -> Result<(), Fail> {
    let alloc = rt.alloc();
    let head = get(alloc, "/v", J1)?;
    let token = sealed(alloc, J1)?;
    let bare = joined(
        alloc,
        &[
            "HEAD /v?URISigningPackage=",
            &token,
            " HTTP/1.1\r\nHost: h\r\n\r\n",
        ],
    )?;
    let by_cookie = get_by_cookie(alloc, "/v", &token)?;
    let absent = get(alloc, "/w", J1)?;
    let old = joined(alloc, &["GET / HTTP/1.0\r\nHost: h\r\n\r\n", &head])?;
    let last = joined(
        alloc,
        &[
            "GET /v?URISigningPackage=",
            &token,
            " HTTP/1.1\r\nHost: h\r\nConnection: close\r\n\r\n",
            &head,
        ],
    )?;
    let post = joined(alloc, &["POST /v HTTP/1.1\r\nHost: h\r\n\r\n", &head])?;
    let with_body = joined(
        alloc,
        &[
            "HEAD /v HTTP/1.1\r\nHost: h\r\nContent-Length: 1\r\n\r\n",
            &head,
        ],
    )?;
    let letters = repeated(alloc, "a", 16384)?;
    let long = joined(alloc, &["GET /v HTTP/1.1\r\nA: ", &letters])?;
    let fields = repeated(alloc, "A: a\r\n", 65)?;
    let many = joined(alloc, &["GET /v HTTP/1.1\r\n", &fields, "\r\n"])?;
    let two = joined(alloc, &[&head, &bare])?;
    let other = joined(alloc, &[METHOD, OK])?;
    for (bytes, wanted, end, notes) in [
        ("", "", End::Closed, 0usize),
        (head.as_str(), OK, End::Closed, 1),
        (by_cookie.as_str(), OK, End::Closed, 1),
        (
            bare.as_str(),
            "HTTP/1.1 200 OK\r\nContent-Length: 2\r\n\r\n",
            End::Closed,
            1,
        ),
        (
            two.as_str(),
            "HTTP/1.1 200 OK\r\nContent-Length: 2\r\n\r\nokHTTP/1.1 200 OK\r\nContent-Length: 2\r\n\r\n",
            End::Closed,
            2,
        ),
        (
            absent.as_str(),
            "HTTP/1.1 404 Not Found\r\nContent-Length: 10\r\n\r\nno object\n",
            End::Closed,
            1,
        ),
        ("GET /\x01 HTTP/1.1\r\n\r\n", BAD, End::BadHead, 0),
        (
            "GET ftp://h/ HTTP/1.1\r\n\r\n",
            "HTTP/1.1 400 Bad Request\r\nContent-Length: 13\r\n\r\ndenied 1 Uri\n",
            End::Closed,
            1,
        ),
        (
            old.as_str(),
            "HTTP/1.1 403 Forbidden\r\nContent-Length: 17\r\nConnection: close\r\n\r\ndenied 2 Missing\n",
            End::Closed,
            1,
        ),
        (
            last.as_str(),
            "HTTP/1.1 200 OK\r\nContent-Length: 2\r\nConnection: close\r\n\r\nok",
            End::Closed,
            1,
        ),
        (post.as_str(), other.as_str(), End::Closed, 1),
        (
            with_body.as_str(),
            "HTTP/1.1 400 Bad Request\r\nContent-Length: 5\r\nConnection: close\r\n\r\n",
            End::Body,
            0,
        ),
        (long.as_str(), BAD, End::HeadTooLong, 0),
        (many.as_str(), BAD, End::ManyHeaders, 0),
    ] {
        let ran = run(alloc, CALM, bytes)?;
        assert!(rt; ran.text.as_slice() == wanted.as_bytes(), "{wanted}");
        assert!(rt; ran.end == end);
        assert_eq!(rt; ran.notes.len(), notes);
    }
    Ok(())
}

// The nonce call at that place, at the moment of a calm scene.
fn called(place: u64, answer: Answer) -> Option<Turned> {
    Some(Turned {
        place,
        moment: 50,
        answer,
    })
}

#[test]
fn takes_a_nonce_once(rt: HostRuntime) -> Result<(), Fail> {
    let alloc = rt.alloc();
    let once = get(alloc, "/v", ONCE)?;
    let other = get(alloc, "/v", OTHER)?;
    let full = "HTTP/1.1 503 Service Unavailable\r\nContent-Length: 15\r\n\r\ndenied 18 Room\n";
    for (room, second, reply, answer) in [
        (4, &once, SEEN, Answer::Seen),
        (4, &other, OK, Answer::Taken),
        (1, &other, full, Answer::Full),
    ] {
        let bytes = joined(alloc, &[&once, second])?;
        let ran = run(alloc, Scene { room, ..CALM }, &bytes)?;
        let wanted = joined(alloc, &[OK, reply])?;
        assert!(rt; ran.text.as_slice() == wanted.as_bytes(), "{reply}");
        assert_eq!(rt; ran.notes.len(), 2);
        assert!(rt; ran.notes[0].call == called(0, Answer::Taken));
        assert!(rt; ran.notes[1].call == called(1, answer));
    }
    Ok(())
}

// A read of the objects that fails is the reply to one head alone, and the nonce that was taken for it stays taken.
#[test]
fn a_fault_of_the_objects_passes(rt: HostRuntime) -> Result<(), Fail> {
    let alloc = rt.alloc();
    let once = get(alloc, "/v", ONCE)?;
    let other = get(alloc, "/v", OTHER)?;
    let bytes = joined(alloc, &[&once, &once, &other])?;
    let scene = Scene {
        finds: &[0],
        ..CALM
    };
    let ran = run(alloc, scene, &bytes)?;
    let wanted = joined(alloc, &[NO_ANSWER, SEEN, OK])?;
    assert!(rt; ran.text.as_slice() == wanted.as_bytes());
    assert!(rt; ran.end == End::Closed);
    Ok(())
}

// Whether it notes that status, that verdict, and these parts of a redirection or a renewal.
fn notes(
    note: &Note,
    status: u16,
    verdict: Verdict,
    route: Option<u16>,
    issued: Option<&str>,
) -> bool {
    let same_issue = match (&note.issued, issued) {
        (None, None) => true,
        (Some(token), Some(text)) => token.text() == text.as_bytes(),
        _ => false,
    };
    note.status == status && note.verdict == verdict && note.route == route && same_issue
}

#[test]
fn renews_a_token_in_a_cookie(rt: HostRuntime) -> Result<(), Fail> {
    let alloc = rt.alloc();
    let next = sealed(alloc, NEXT)?;
    let first = get(alloc, "/v/1/s1.ts", RENEWED)?;
    let absent = get(alloc, "/v/1/s3.ts", RENEWED)?;
    let bytes = joined(alloc, &[&first, &absent])?;
    let ran = run(alloc, CALM, &bytes)?;
    let wanted = joined(
        alloc,
        &[
            "HTTP/1.1 200 OK\r\nContent-Length: 2\r\nSet-Cookie: URISigningPackage=",
            &next,
            "; Path=/v\r\n\r\nokHTTP/1.1 404 Not Found\r\nContent-Length: 10\r\n\r\nno object\n",
        ],
    )?;
    assert!(rt; ran.text.as_slice() == wanted.as_bytes());
    assert_eq!(rt; ran.notes.len(), 2);
    assert!(rt;
        notes(
            &ran.notes[0],
            200,
            Verdict::Admitted,
            None,
            Some(next.as_str())
        )
    );
    assert!(rt; notes(&ran.notes[1], 404, Verdict::Admitted, None, None));
    // The cookie is taken where the first token is not any more.
    let second = get_by_cookie(alloc, "/v/1/s2.ts", &next)?;
    for (bytes, status, verdict) in [
        (first.as_str(), 403, Verdict::Denied(Rule::Expired)),
        (second.as_str(), 200, Verdict::Admitted),
    ] {
        let scene = Scene { moment: 70, ..CALM };
        let ran = run(alloc, scene, bytes)?;
        assert_eq!(rt; ran.notes.len(), 1);
        assert_eq!(rt; ran.notes[0].status, status);
        assert!(rt; ran.notes[0].verdict == verdict);
    }
    Ok(())
}

#[test]
fn sends_a_request_on(rt: HostRuntime) -> Result<(), Fail> {
    let alloc = rt.alloc();
    let signed = sealed_for_route(alloc, SENT)?;
    let head = get(alloc, "/b/s.ts", SENT)?;
    let bytes = joined(alloc, &[&head, &head])?;
    let ran = run(alloc, CALM, &bytes)?;
    let wanted = joined(
        alloc,
        &[
            "HTTP/1.1 302 Found\r\nContent-Length: 0\r\nLocation: https://b.example/b/s.ts?URISigningPackage=",
            &signed,
            "\r\n\r\n",
            SEEN,
        ],
    )?;
    assert!(rt; ran.text.as_slice() == wanted.as_bytes());
    assert_eq!(rt; ran.notes.len(), 2);
    assert!(rt;
        notes(
            &ran.notes[0],
            302,
            Verdict::Admitted,
            Some(0),
            Some(signed.as_str())
        )
    );
    assert!(rt; notes(&ran.notes[1], 403, Verdict::Denied(Rule::Seen), None, None));
    Ok(())
}

#[test]
fn answers_a_hundred_heads(rt: HostRuntime) -> Result<(), Fail> {
    let alloc = rt.alloc();
    let head = get(alloc, "/v", J1)?;
    let bytes = repeated(alloc, &head, 101)?;
    let before = repeated(alloc, OK, 99)?;
    let last = "HTTP/1.1 200 OK\r\nContent-Length: 2\r\nConnection: close\r\n\r\nok";
    let wanted = joined(alloc, &[&before, last])?;
    let ran = run(alloc, CALM, &bytes)?;
    assert!(rt; ran.text.as_slice() == wanted.as_bytes());
    assert!(rt; ran.end == End::Enough);
    assert_eq!(rt; ran.notes.len(), 100);
    Ok(())
}

// Each put fails in turn, after half of its bytes: the replies before are whole, and the note is there.
#[test]
fn stops_at_a_failed_put(rt: HostRuntime) -> Result<(), Fail> {
    let alloc = rt.alloc();
    let head = get(alloc, "/v", J1)?;
    let bytes = joined(alloc, &[&head, &head, &head, "GET /v"])?;
    for put in 0..4u64 {
        let failing = [put];
        let scene = Scene {
            puts: &failing,
            ..CALM
        };
        let ran = run(alloc, scene, &bytes)?;
        let whole = repeated(alloc, OK, put as usize)?;
        let broken = if put < 3 { OK } else { BAD };
        let half = broken.as_bytes().split_at(broken.len() / 2).0;
        assert!(rt; ran.text.as_slice().starts_with(whole.as_bytes()), "{put}");
        assert!(rt; ran.text.as_slice().ends_with(half));
        assert_eq!(rt; ran.text.len(), whole.len() + half.len());
        assert!(rt; ran.end == End::WriteFault);
        assert_eq!(rt; ran.notes.len(), (put as usize + 1).min(3));
    }
    Ok(())
}

// Each read fails in turn: the heads that were read whole by then are answered.
#[test]
fn stops_at_a_failed_read(rt: HostRuntime) -> Result<(), Fail> {
    let alloc = rt.alloc();
    let head = get(alloc, "/v", J1)?;
    let bytes = joined(alloc, &[&head, &head, &head])?;
    let piece = 64;
    for read in 0..(bytes.len() / piece) as u64 {
        let failing = [read];
        let scene = Scene {
            piece,
            reads: &failing,
            ..CALM
        };
        let ran = run(alloc, scene, &bytes)?;
        let answered = read as usize * piece / head.len().max(1);
        let wanted = repeated(alloc, OK, answered)?;
        assert!(rt; ran.text.as_slice() == wanted.as_bytes(), "{read}");
        assert!(rt; ran.end == End::ReadFault);
        assert_eq!(rt; ran.notes.len(), answered);
    }
    Ok(())
}
