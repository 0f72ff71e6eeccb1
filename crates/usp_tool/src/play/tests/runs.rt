//! `play` through `run`, over a link in memory.
use crate::edge::{Worker, clear_shifts, edge_words};
use crate::run::{Outside, run};
use crate::tests::words_of;
use std::alloc::{AllocError, Global};
use std::process::Abort;
use std::sync::Wait;
use std::test::Fail;
use std::thread::Threads;
use usp_base::{
    ListedLink, ListedSink, MemoryFile, Octets, Status, SteadyClock, SteadyDoor, SteadyFiles,
    SteadyObjects, SteadySource,
};
use usp_ext::{Kit, equals, is_any, is_at_most, is_one_of, is_path_prefix};
use usp_lab::PlainBench;
use usp_player::{MAX_PLAYLIST, MAX_SEGMENTS};

const LIST: &[u8] = b"HTTP/1.1 200 OK\r\nContent-Length: 59\r\n\r\n\
    #EXTM3U\n#EXT-X-TARGETDURATION:6\n#EXTINF:6,\na\n#EXTINF:6,\nb\n\n";

const OK: &[u8] = b"HTTP/1.1 200 OK\r\nContent-Length: 2\r\n\r\nok";

const ON: &[u8] = b"HTTP/1.1 302 Found\r\nLocation: /x\r\nContent-Length: 0\r\n\r\n";

// Runs `play` of a URI over a map and the answers of a link, of which some asks fail, and answers the status and what
// was written.
fn plays<R: Threads + Wait + Sync + Abort + AllocGlobal>(
    rt: &R,
    uri: &str,
    map: &str,
    answers: &[&[u8]],
    failing: &[u64],
) -> Result<(Status, Vec<u8>), AllocError> {
    let alloc = rt.alloc();
    let words = words_of(alloc, &["play", uri, "m"])?;
    let mut files = Vec::new(alloc);
    files.push(MemoryFile {
        name: Octets::of(b"m".to_vec(alloc)?),
        bytes: Octets::of(map.as_bytes().to_vec(alloc)?),
    })?;
    let mut told = Vec::new(alloc);
    for answer in answers {
        told.push(Octets::of(answer.to_vec(alloc)?))?;
    }
    let workers: Vec<Worker<SteadyDoor, SteadyClock, SteadyObjects>> = Vec::new(alloc);
    let mut outside = Outside {
        files: SteadyFiles::new(alloc, files),
        input: SteadySource::new(Vec::new(alloc)),
        out: ListedSink::new(alloc, Vec::new(alloc)),
        workers,
        link: ListedLink::new(alloc, told, failing.to_vec(alloc)?),
        bench: PlainBench::new(),
        kit: Kit::new(is_any, equals, is_one_of, is_at_most, is_path_prefix),
    };
    assert!(rt; edge_words(&words).is_none());
    clear_shifts(outside.workers.as_mut_slice());
    let status = run(rt, alloc, &words, &mut outside);
    Ok((status, outside.out.bytes().to_vec(alloc)?))
}

#[test]
fn a_playlist_is_played_or_the_player_stops(rt: HostRuntime) -> Result<(), Fail> {
    let none: &[u64] = &[];
    let third: &[u64] = &[2];
    let map = "h 127.0.0.1:80\n";
    let rows: [(&str, &[&[u8]], &[u64], Status, &str); 9] = [
        (
            map,
            &[LIST, OK, OK],
            none,
            Status::Done,
            "1 200 h /l\n2 200 h /a\n3 200 h /b\nplayed 2\n",
        ),
        (
            map,
            &[ON, ON, ON, ON, ON, ON, ON],
            none,
            Status::Refused,
            "1 302 h /l\n2 302 h /x\n3 302 h /x\n4 302 h /x\n5 302 h /x\n6 302 h /x\nstopped TooManyHops\n",
        ),
        (
            map,
            &[b"HTTP/1.1 403 Forbidden\r\nContent-Length: 0\r\n\r\n"],
            none,
            Status::Denials,
            "1 403 h /l\nstopped Denied\n",
        ),
        (
            map,
            &[b"HTTP/1.1 302 Found\r\nContent-Length: 0\r\n\r\n"],
            none,
            Status::Refused,
            "1 302 h /l\nstopped NoLocation\n",
        ),
        (
            map,
            &[b"HTTP/1.1 200 OK\r\n\r\n"],
            none,
            Status::Refused,
            "stopped BadReply\n",
        ),
        (
            map,
            &[OK],
            none,
            Status::Refused,
            "1 200 h /l\nstopped List\n",
        ),
        (
            map,
            &[LIST, OK, OK],
            third,
            Status::Outside,
            "1 200 h /l\n2 200 h /a\nstopped LinkFault\n",
        ),
        ("", &[LIST], none, Status::Refused, "stopped NoAddress\n"),
        (
            "h 127.0.0.1:80\nh\n",
            &[LIST],
            none,
            Status::Refused,
            "refused map 2\n",
        ),
    ];
    for (map, answers, failing, status, written) in rows {
        let (ended, text) = plays(&rt, "http://h/l?q", map, answers, failing)?;
        assert_eq!(rt; ended, status);
        assert_eq!(rt; text.as_slice(), written.as_bytes());
    }
    let (ended, text) = plays(&rt, "ftp://h/l", "h 127.0.0.1:80\n", &[LIST], none)?;
    assert_eq!(rt; ended, Status::Refused);
    assert_eq!(rt; text.as_slice(), b"stopped BadUri\n".as_slice());
    Ok(())
}

// A reply with the status 200 and this body.
fn reply(alloc: Global, body: &[u8]) -> Result<Vec<u8>, AllocError> {
    let mut bytes = b"HTTP/1.1 200 OK\r\nContent-Length: ".to_vec(alloc)?;
    bytes.extend_from_slice(body.len().to_string(alloc)?.as_bytes())?;
    bytes.extend_from_slice(b"\r\n\r\n")?;
    bytes.extend_from_slice(body)?;
    Ok(bytes)
}

// So many pieces, behind this front.
fn repeated(
    alloc: Global,
    front: &[u8],
    piece: &[u8],
    times: usize,
) -> Result<Vec<u8>, AllocError> {
    let mut bytes = front.to_vec(alloc)?;
    for _ in 0..times {
        bytes.extend_from_slice(piece)?;
    }
    Ok(bytes)
}

#[test]
fn a_refused_list_stops_the_player(rt: HostRuntime) -> Result<(), Fail> {
    let alloc = rt.alloc();
    let head: &[u8] = b"#EXTM3U\n#EXT-X-TARGETDURATION:6\n";
    // Each row has what the playlist begins with, and a piece that stands behind it so often.
    let rows: [(&[u8], &[u8], usize); 16] = [
        // It is too long, whatever it says.
        (b"#EXTM3U\n", b"#", MAX_PLAYLIST - 7),
        (b"", b"\xff", MAX_PLAYLIST + 1),
        // It is not UTF-8.
        (head, b"\xc3", 1),
        (b"\xef", b"#EXTM3U\n", 1),
        // It has no header.
        (b"", b"", 0),
        (b"", b"\n#EXTM3U\n", 1),
        // The target duration is no number, or stands twice.
        (b"#EXTM3U\n", b"#EXT-X-TARGETDURATION:4294967296\n", 1),
        (head, b"#EXT-X-TARGETDURATION:6\n", 1),
        // `#EXTINF:` has no duration, or no URI.
        (head, b"#EXTINF:a,\na\n", 1),
        (head, b"#EXTINF:6,\n", 1),
        (head, b"#EXTINF:6,\n#EXTINF:6,\na\n", 1),
        // A URI has no `#EXTINF:`.
        (head, b"a\n", 1),
        // A segment is a part of a resource.
        (head, b"#EXTINF:6,\n#EXT-X-BYTERANGE:5\na\n", 1),
        // One URI is too many.
        (head, b"#EXTINF:6,\na\n", MAX_SEGMENTS + 1),
        // There is no target duration.
        (b"#EXTM3U\n", b"", 0),
        (b"#EXTM3U\n", b"#EXTINF:6,\na\n", 1),
    ];
    for (front, piece, times) in rows {
        let list = repeated(alloc, front, piece, times)?;
        let answer = reply(alloc, &list)?;
        let (ended, text) = plays(&rt, "http://h/l", "h 127.0.0.1:80\n", &[ON, &answer], &[])?;
        assert_eq!(rt; ended, Status::Refused);
        assert_eq!(rt;
            text.as_slice(),
            b"1 302 h /l\n2 200 h /x\nstopped List\n".as_slice()
        );
    }
    Ok(())
}

#[test]
fn the_longest_lists_are_played(rt: HostRuntime) -> Result<(), Fail> {
    let alloc = rt.alloc();
    // The first playlist is as long as one may be. The second has as many segments, and the link fails at the first.
    let head: &[u8] = b"#EXTM3U\n#EXT-X-TARGETDURATION:6\n";
    let longest = repeated(alloc, head, b"#", MAX_PLAYLIST - head.len())?;
    let fullest = repeated(alloc, head, b"#EXTINF:6,\na\n", MAX_SEGMENTS)?;
    let rows: [(&[u8], Status, &str); 2] = [
        (&longest, Status::Done, "1 200 h /l\nplayed 0\n"),
        (&fullest, Status::Outside, "1 200 h /l\nstopped LinkFault\n"),
    ];
    for (list, status, written) in rows {
        let answer = reply(alloc, list)?;
        let (ended, text) = plays(&rt, "http://h/l", "h 127.0.0.1:80\n", &[&answer], &[])?;
        assert_eq!(rt; ended, status);
        assert_eq!(rt; text.as_slice(), written.as_bytes());
    }
    Ok(())
}
