//! Workers over doors in memory.
ghost use Rattle.std.specs.Prelude.{IfOk};
ghost use Rattle.usp_base.specs.WireMemory.{IsFreshSteadyWire, IsFreshWire};

use crate::edge::{DoorEnd, Log, Service, Visit, serve_door};
use std::alloc::Global;
use std::sync::Wait;
use std::test::Fail;
use usp_base::{
    Door, ListedDoor, ListedSink, ListedSource, ListedWire, MemoryFile, Octets, Source,
    SteadyClock, SteadyDoor, SteadyObjects, SteadySink, SteadySource, SteadyWire,
};
use usp_conf::read_conf;
use usp_edge::{Edge, End, Note, Seated, Verdict};
use usp_ext::{Kit, equals, is_any, is_at_most, is_one_of, is_path_prefix};
use usp_jws::{Key, MAX_PAYLOAD, seal};
use usp_nonce::{Answer, NonceTable};
use usp_rules::Rule;
use usp_shared::SharedNonces;

const CONF: &[u8] = b"{\"edge\":\"e\",\"scheme\":\"http\",\
    \"keys\":[{\"kid\":\"k1\",\"issuer\":\"cp\",\"secret\":\"AQEBAQEBAQEBAQEBAQEBAQEBAQEBAQEBAQEBAQEBAQE\"}],\
    \"issuers\":[\"cp\"],\"audience\":[\"e\"],\"sign_kid\":\"k1\"}";

const FREE: &str = "{\"cdniuc\":\"regex:^http://h/\",\"exp\":100}";

const ONCE: &str = "{\"cdniuc\":\"regex:^http://h/\",\"jti\":\"n\"}";

const OK: &[u8] = b"HTTP/1.1 200 OK\r\nContent-Length: 2\r\n\r\nok";

// The bytes of a connection with one request, which brings a token over claims.
fn request(alloc: Global, claims: &str) -> Result<Vec<u8>, Fail> {
    if claims.len() > MAX_PAYLOAD {
        return Err(Fail::new("claims that are too long to seal"));
    }
    let key = Key::new(alloc, b"k1", b"cp", &[1; 32])?;
    let token = seal(alloc, &key, claims.as_bytes())?;
    let mut bytes = Vec::new(alloc);
    for piece in [
        b"GET /v?URISigningPackage=".as_slice(),
        token.text(),
        b" HTTP/1.1\r\nHost: h\r\n\r\n".as_slice(),
    ] {
        bytes.extend_from_slice(piece)?;
    }
    Ok(bytes)
}

// A connection with one request, of which some reads fail.
fn listed(alloc: Global, claims: &str, failing: &[u64]) -> Result<ListedWire, Fail>
    ensures { IfOk result (λ wire. IsFreshWire wire) }
{
    let failing = Vec::from_slice(alloc, failing)?;
    Ok(ListedWire {
        source: ListedSource::new(request(alloc, claims)?, 4096, failing),
        sink: ListedSink::new(alloc, Vec::new(alloc)),
    })
}

// The same, and nothing fails.
fn steady(alloc: Global, claims: &str) -> Result<SteadyWire, Fail>
    ensures { IfOk result (λ wire. IsFreshSteadyWire wire) }
{
    Ok(SteadyWire {
        source: SteadySource::new(request(alloc, claims)?),
        sink: SteadySink::new(),
    })
}

// The object that the requests ask for.
fn objects(alloc: Global) -> Result<Vec<MemoryFile>, Fail> {
    let mut objects = Vec::new(alloc);
    objects.push(MemoryFile {
        name: Octets::of(Vec::from_slice(alloc, b"http://h/v")?),
        bytes: Octets::of(Vec::from_slice(alloc, b"ok")?),
    })?;
    Ok(objects)
}

// How the work of a worker ended, and its log.
#[derive(Drop)]
struct Ran {
    end: DoorEnd,
    log: Log,
}

// Works at a door over a seat of a table, at the moment 50, for up to three connections.
fn work<R: Wait, D: Door>(rt: &R, alloc: Global, door: &mut D, most: u64) -> Result<Ran, Fail> {
    let conf = read_conf(alloc, CONF)?;
    let kit = Kit::new(is_any, equals, is_one_of, is_at_most, is_path_prefix);
    let table = NonceTable::with_room(alloc, 4)?;
    let (shared, seat) = SharedNonces::new(alloc, table, 300)?;
    let mut nonces = Seated::new(&shared, seat, rt);
    let mut clock = SteadyClock::new(50);
    let mut objects = SteadyObjects::new(objects(alloc)?);
    let mut log = Log {
        notes: Vec::new(alloc),
        visits: Vec::new(alloc),
    };
    let service = Service {
        edge: Edge {
            alloc,
            kit: &kit,
            conf: &conf,
        },
        most: most.max(1).min(3),
    };
    let end = serve_door(
        &service,
        door,
        &mut nonces,
        &mut clock,
        &mut objects,
        &mut log,
    );
    Ok(Ran { end, log })
}

// Two connections, one request each: which asks of the door fail, which reads of the second connection fail, how many
// are served at most, and what comes of it: the end of the work, and the ends of the connections.
#[derive(Clone, Copy)]
struct Row<'a> {
    asks: &'a [u64],
    reads: &'a [u64],
    most: u64,
    end: DoorEnd,
    ends: &'a [End],
}

// A door with the two connections of a row.
fn door_of(alloc: Global, row: Row<'_>) -> Result<ListedDoor, Fail> {
    let mut door = ListedDoor::new(alloc, Vec::from_slice(alloc, row.asks)?);
    door.add(listed(alloc, FREE, &[])?)?;
    door.add(listed(alloc, FREE, row.reads)?)?;
    Ok(door)
}

// Whether a connection ended so, and the line that was given back has the reply, or the fault of the read.
fn is_served(visit: &Visit, line: &ListedWire, end: End) -> bool {
    let (text, notes, faults) = if end == End::Closed {
        (OK, 1, 0)
    } else {
        (b"".as_slice(), 0, 1)
    };
    visit.end == end
        && visit.notes == notes
        && line.sink.bytes() == text
        && line.source.read_faults() == faults
}

fn are_served(visits: &[Visit], lines: &[ListedWire], ends: &[End]) -> bool {
    visits.len() == ends.len()
        && lines.len() == ends.len()
        && visits
            .iter()
            .zip(lines)
            .zip(ends)
            .all(|((visit, line), end)| is_served(visit, line, *end))
}

// Whether the work at a door of a row comes to what the row says.
fn holds<R: Wait>(rt: &R, alloc: Global, row: Row<'_>) -> Result<bool, Fail> {
    let mut door = door_of(alloc, row)?;
    let ran = work(rt, alloc, &mut door, row.most)?;
    Ok(ran.end == row.end && are_served(&ran.log.visits, door.back(), row.ends))
}

#[test]
fn serves_connections_in_order(rt: HostRuntime) -> Result<(), Fail> {
    let alloc = rt.alloc();
    let calm = Row {
        asks: &[],
        reads: &[],
        most: 3,
        end: DoorEnd::Ended,
        ends: &[End::Closed, End::Closed],
    };
    for row in [
        calm,
        Row {
            most: 2,
            end: DoorEnd::Most,
            ..calm
        },
        Row {
            most: 1,
            end: DoorEnd::Most,
            ends: &[End::Closed],
            ..calm
        },
        Row {
            asks: &[0],
            end: DoorEnd::DoorFault,
            ends: &[],
            ..calm
        },
        Row {
            asks: &[1],
            end: DoorEnd::DoorFault,
            ends: &[End::Closed],
            ..calm
        },
        Row {
            reads: &[0],
            ends: &[End::Closed, End::ReadFault],
            ..calm
        },
    ] {
        let held = holds(&rt, alloc, row)?;
        assert!(rt; held, "{}", row.most);
    }
    Ok(())
}

// The nonce calls of the notes are those of the connections, in order.
#[test]
fn takes_a_nonce_once_over_all_connections(rt: HostRuntime) -> Result<(), Fail> {
    let alloc = rt.alloc();
    let mut door = SteadyDoor::new(alloc);
    for claims in [ONCE, FREE, ONCE] {
        door.add(steady(alloc, claims)?)?;
    }
    let ran = work(&rt, alloc, &mut door, 3)?;
    assert!(rt; ran.end == DoorEnd::Most);
    assert_eq!(rt; ran.log.notes.len(), 3);
    for (note, status, verdict, call) in [
        (
            &ran.log.notes[0],
            200,
            Verdict::Admitted,
            Some((0, Answer::Taken)),
        ),
        (&ran.log.notes[1], 200, Verdict::Admitted, None),
        (
            &ran.log.notes[2],
            403,
            Verdict::Denied(Rule::Seen),
            Some((1, Answer::Seen)),
        ),
    ] {
        assert_eq!(rt; note.status, status);
        assert!(rt; note.verdict == verdict);
        assert!(rt; called(note) == call);
    }
    Ok(())
}

// The place and the answer of a note's nonce call.
fn called(note: &Note) -> Option<(u64, Answer)> {
    let turned = note.call?;
    Some((turned.place, turned.answer))
}
