//! Edges of two workers over doors in memory.
ghost use Rattle.std.specs.Prelude.{◌≡◌, ◌≤◌, List, ℕ, Option, None, IfOk};
ghost use Rattle.usp_base.specs.WireMemory.{IsFreshSteadyWire, IsFreshWire};

use crate::edge::{Log, Service, Shift, Visit, Worker, clear_shifts, serve_edge, text_of_edge};
use crate::limits::{MAX_CONNECTIONS, MAX_WORKERS};
use std::alloc::Global;
use std::process::Abort;
use std::sync::Wait;
use std::sync::atomic::{AtomicU64, Ordering};
use std::test::Fail;
use std::thread::Threads;
use usp_base::{
    Clock, Door, ListedDoor, ListedSink, ListedSource, ListedWire, LoadFault, MemoryFile, Objects,
    Octets, SteadyClock, SteadyDoor, SteadyObjects, SteadySink, SteadySource, SteadyWire,
};
use usp_conf::{Conf, read_conf};
use usp_edge::{Edge, End, Note, Verdict};
use usp_ext::{Kit, equals, is_any, is_at_most, is_one_of, is_path_prefix};
use usp_jws::{Key, MAX_PAYLOAD, seal};
use usp_nonce::{Answer, NonceTable, Turned};
use usp_rules::Rule;

const CONF: &[u8] = b"{\"edge\":\"e\",\"scheme\":\"http\",\
    \"keys\":[{\"kid\":\"k1\",\"issuer\":\"cp\",\"secret\":\"AQEBAQEBAQEBAQEBAQEBAQEBAQEBAQEBAQEBAQEBAQE\"}],\
    \"issuers\":[\"cp\"],\"audience\":[\"e\"],\"sign_kid\":\"k1\"}";

const FREE: &str = "{\"cdniuc\":\"regex:^http://h/\",\"exp\":100}";

const ONCE: &str = "{\"cdniuc\":\"regex:^http://h/\",\"jti\":\"n\"}";

const OK: &[u8] = b"HTTP/1.1 200 OK\r\nContent-Length: 2\r\n\r\nok";

// The bytes of a connection with so many requests, each of which brings a token over claims.
fn requests(alloc: Global, claims: &str, count: u64) -> Result<Vec<u8>, Fail> {
    if claims.len() > MAX_PAYLOAD {
        return Err(Fail::new("claims that are too long to seal"));
    }
    let key = Key::new(alloc, b"k1", b"cp", &[1; 32])?;
    let token = seal(alloc, &key, claims.as_bytes())?;
    let mut bytes = Vec::new(alloc);
    for _ in 0..count {
        bytes.extend_from_slice(b"GET /v?URISigningPackage=")?;
        bytes.extend_from_slice(token.text())?;
        bytes.extend_from_slice(b" HTTP/1.1\r\nHost: h\r\n\r\n")?;
    }
    Ok(bytes)
}

// A connection with one request.
fn listed(alloc: Global, claims: &str) -> Result<ListedWire, Fail>
    ensures { IfOk result (λ wire. IsFreshWire wire) }
{
    Ok(ListedWire {
        source: ListedSource::new(requests(alloc, claims, 1)?, 4096, Vec::new(alloc)),
        sink: ListedSink::new(alloc, Vec::new(alloc)),
    })
}

// A connection with ten requests, on which nothing fails.
fn steady(alloc: Global, claims: &str) -> Result<SteadyWire, Fail>
    ensures { IfOk result (λ wire. IsFreshSteadyWire wire) }
{
    Ok(SteadyWire {
        source: SteadySource::new(requests(alloc, claims, 10)?),
        sink: SteadySink::new(),
    })
}

// The object that the requests ask for.
fn objects(alloc: Global) -> Result<SteadyObjects, Fail> {
    let mut objects = Vec::new(alloc);
    objects.push(MemoryFile {
        name: Octets::of(Vec::from_slice(alloc, b"http://h/v")?),
        bytes: Octets::of(Vec::from_slice(alloc, b"ok")?),
    })?;
    Ok(SteadyObjects::new(objects))
}

// A worker whose clock stands at 50.
fn worker<D, O>(alloc: Global, door: D, objects: O) -> Worker<D, SteadyClock, O> {
    Worker {
        door,
        clock: SteadyClock::new(50),
        objects,
        shift: Shift::empty(alloc),
    }
}

// Serves an edge, each of whose workers takes so many connections at most, and answers the number of nonce calls.
fn serve<R: Threads + Wait + Sync + Abort, D: Door + Send, C: Clock + Send, O: Objects + Send>(
    rt: &R,
    alloc: Global,
    conf: &Conf,
    most: u64,
    workers: &mut [Worker<D, C, O>],
) -> Result<u64, Fail>
where
    D::Line: Send,
{
    let kit = Kit::new(is_any, equals, is_one_of, is_at_most, is_path_prefix);
    let service = Service {
        edge: Edge {
            alloc,
            kit: &kit,
            conf,
        },
        most,
    };
    assert!(rt; 1 <= most && most <= MAX_CONNECTIONS);
    assert!(rt; 1 <= workers.len() && workers.len() <= MAX_WORKERS);
    let table = NonceTable::with_room(alloc, conf.room())?;
    clear_shifts(workers);
    Ok(serve_edge(rt, &service, table, workers)?)
}

#[test]
fn serves_an_edge_of_two_workers(rt: HostRuntime) -> Result<(), Fail> {
    let alloc = rt.alloc();
    let conf = read_conf(alloc, CONF)?;
    let mut doors = Vec::new(alloc);
    for _ in 0..2 {
        let mut door = ListedDoor::new(alloc, Vec::new(alloc));
        door.add(listed(alloc, FREE)?)?;
        doors.push(worker(alloc, door, objects(alloc)?))?;
    }
    let calls = serve(&rt, alloc, &conf, 4, doors.as_mut_slice())?;
    let text = text_of_edge(alloc, conf.edge().text().as_bytes(), calls, &doors)?;
    let wanted = b"1 1 admitted 200 http://h/v\n1 1 end Closed\n\
        2 1 admitted 200 http://h/v\n2 1 end Closed\nedge e calls 0\n";
    assert!(rt; text.as_slice() == wanted.as_slice());
    for worker in &doors {
        let back = worker.door.back();
        assert_eq!(rt; back.len(), 1);
        assert!(rt; back[0].sink.bytes() == OK);
    }
    clear_shifts(doors.as_mut_slice());
    let text = text_of_edge(alloc, b"e", 0, &doors)?;
    assert!(rt; text.as_slice() == b"edge e calls 0\n".as_slice());
    Ok(())
}

// The places that notes show.
fn push_places(places: &mut Vec<u64>, notes: &[Note]) -> Result<(), Fail> {
    for note in notes {
        if let Some(turned) = note.call {
            places.push(turned.place)?;
        }
    }
    Ok(())
}

#[test]
fn a_thousand_calls_of_two_threads_have_a_place_each(rt: HostRuntime) -> Result<(), Fail> {
    let alloc = rt.alloc();
    let conf = read_conf(alloc, CONF)?;
    let mut doors = Vec::new(alloc);
    for _ in 0..2 {
        let mut door = SteadyDoor::new(alloc);
        for _ in 0..50 {
            door.add(steady(alloc, ONCE)?)?;
        }
        doors.push(worker(alloc, door, objects(alloc)?))?;
    }
    let calls = serve(&rt, alloc, &conf, 50, doors.as_mut_slice())?;
    assert_eq!(rt; calls, 1_000);
    let mut places = Vec::new(alloc);
    let mut admitted: u64 = 0;
    for worker in &doors {
        push_places(&mut places, &worker.shift.log.notes)?;
        for note in &worker.shift.log.notes {
            if note.verdict == Verdict::Admitted {
                admitted = admitted.saturating_add(1);
            }
        }
    }
    places.sort()?;
    assert_eq!(rt; places.len(), 1_000);
    for (i, place) in places.iter().enumerate() {
        assert_eq!(rt; *place, i as u64);
    }
    assert_eq!(rt; admitted, 1);
    Ok(())
}

// How often an object looks for the other's flag.
const LOOKS: u64 = 200_000_000;

// An object of a worker that raises its own flag and waits for that of the other.
#[derive(Drop)]
struct Meeting<'a> {
    own: &'a AtomicU64,
    other: &'a AtomicU64,
    faults: u64,
}

impl<'a> Objects for Meeting<'a> {
    ghost objects = { λ _. None };

    ghost object_count = { λ m. m.faults };

    fn read(&mut self, alloc: Global, _uri: &[u8]) -> Result<Option<Vec<u8>>, LoadFault> {
        self.own.store(1, Ordering::SeqCst);
        for _ in 0..LOOKS {
            if self.other.load(Ordering::SeqCst) == 1 {
                return Ok(Some(Vec::new(alloc)));
            }
        }
        self.faults = self.faults.saturating_add(1);
        Err(LoadFault::Failed)
    }

    fn object_faults(&self) -> u64 {
        self.faults
    }
}

#[test]
fn two_workers_run_side_by_side(rt: HostRuntime) -> Result<(), Fail> {
    let alloc = rt.alloc();
    let conf = read_conf(alloc, CONF)?;
    let first = AtomicU64::new(0);
    let second = AtomicU64::new(0);
    let mut doors = Vec::new(alloc);
    for (own, other) in [(&first, &second), (&second, &first)] {
        let mut door = ListedDoor::new(alloc, Vec::new(alloc));
        door.add(listed(alloc, FREE)?)?;
        let objects = Meeting {
            own,
            other,
            faults: 0,
        };
        doors.push(worker(alloc, door, objects))?;
    }
    serve(&rt, alloc, &conf, 1, doors.as_mut_slice())?;
    for worker in &doors {
        assert_eq!(rt; worker.shift.log.notes.len(), 1);
        assert_eq!(rt; worker.shift.log.notes[0].status, 200);
    }
    Ok(())
}

// A note of a request for a URI.
fn note(alloc: Global, uri: &[u8], verdict: Verdict, call: Option<Turned>) -> Result<Note, Fail> {
    Ok(Note {
        uri: Octets::of(Vec::from_slice(alloc, uri)?),
        token: None,
        moment: 50,
        verdict,
        call,
        route: None,
        issued: None,
        status: 200,
    })
}

// Each row has the URI, the verdict, the answered call, the end and the text of one connection.
#[test]
fn prints_each_request_and_each_end(rt: HostRuntime) -> Result<(), Fail> {
    let alloc = rt.alloc();
    let taken = Some(Turned {
        place: 3,
        moment: 60,
        answer: Answer::Taken,
    });
    for (uri, verdict, call, end, wanted) in [
        (
            b"http://h/v?a=b".as_slice(),
            Verdict::Admitted,
            None,
            End::Closed,
            b"1 1 admitted 200 http://h/v\n1 1 end Closed\n".as_slice(),
        ),
        (
            b"http://h/a;t=b/v?c",
            Verdict::Admitted,
            taken,
            End::Enough,
            b"1 1 admitted 200 nonce 3 at 60 http://h/a\n1 1 end Enough\n",
        ),
        (
            b"http://h/v",
            Verdict::Denied(Rule::Expired),
            None,
            End::CutShort,
            b"1 1 denied 13 Expired http://h/v\n1 1 end CutShort\n",
        ),
        (
            b"",
            Verdict::Denied(Rule::Seen),
            taken,
            End::WriteFault,
            b"1 1 denied 17 Seen nonce 3 at 60 \n1 1 end WriteFault\n",
        ),
    ] {
        let mut worker = worker(alloc, SteadyDoor::new(alloc), objects(alloc)?);
        worker
            .shift
            .log
            .notes
            .push(note(alloc, uri, verdict, call)?)?;
        worker.shift.log.visits.push(Visit { notes: 1, end })?;
        let workers = Vec::from_array(alloc, [worker])?;
        let text = text_of_edge(alloc, b"e", 4, &workers)?;
        let mut whole = Vec::from_slice(alloc, wanted)?;
        whole.extend_from_slice(b"edge e calls 4\n")?;
        assert!(rt; text == whole);
    }
    Ok(())
}
