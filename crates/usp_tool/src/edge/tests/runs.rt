//! `edge` through `run`, over doors in memory.
ghost use Rattle.std.specs.Prelude.{◌≡◌, All, IfOk, IfSome, length, map, string_bytes};
ghost use Rattle.usp_base.specs.WireMemory.{IsFreshWire};
ghost use Rattle.usp_tool.specs.Edge.Desks.{IsEmpty};
ghost use Rattle.usp_tool.specs.Edge.Words.{edge_of};

use crate::edge::{Shift, Worker, edge_of, edge_words};
use crate::run::{Outside, run};
use crate::tests::{CONF, EXPRESSION, one_file, words_of};
use std::alloc::{AllocError, Global};
use std::sync::Wait;
use std::test::Fail;
use std::thread::Threads;
use usp_base::{
    ListedDoor, ListedSink, ListedSource, ListedWire, MemoryFile, Octets, Status, SteadyClock,
    SteadyFiles, SteadyLink, SteadyObjects, SteadySource,
};
use usp_ext::{Kit, equals, is_any, is_at_most, is_one_of, is_path_prefix};
use usp_lab::PlainBench;

// A connection with one request.
fn connection(alloc: Global) -> Result<ListedWire, AllocError>
    ensures { IfOk result (λ wire. IsFreshWire wire) }
{
    let mut bytes = b"GET /v?URISigningPackage=".to_vec(alloc)?;
    bytes.extend_from_slice(EXPRESSION.as_bytes())?;
    bytes.extend_from_slice(b" HTTP/1.1\r\nHost: h\r\n\r\n")?;
    Ok(ListedWire {
        source: ListedSource::new(bytes, 4096, Vec::new(alloc)),
        sink: ListedSink::new(alloc, Vec::new(alloc)),
    })
}

// A worker at a moment, to whose door one connection comes. The asks of the door whose places are in `failing` fail.
fn worker(
    alloc: Global,
    moment: u64,
    failing: &[u64],
) -> Result<Worker<ListedDoor, SteadyClock, SteadyObjects>, AllocError>
    ensures { IfOk result (λ w. IsEmpty w.shift) }
{
    let mut door = ListedDoor::new(alloc, failing.to_vec(alloc)?);
    door.add(connection(alloc)?)?;
    let mut objects = Vec::new(alloc);
    objects.push(MemoryFile {
        name: Octets::of(b"http://h/v".to_vec(alloc)?),
        bytes: Octets::of(b"ok".to_vec(alloc)?),
    })?;
    Ok(Worker {
        door,
        clock: SteadyClock::new(moment.min(1_000)),
        objects: SteadyObjects::new(objects),
        shift: Shift::empty(alloc),
    })
}

// The first worker, at the moment 50 and with asks of its door that fail, or another at this moment.
fn worker_at(
    alloc: Global,
    place: u64,
    moment: u64,
    failing: &[u64],
) -> Result<Worker<ListedDoor, SteadyClock, SteadyObjects>, AllocError>
    ensures { IfOk result (λ w. IsEmpty w.shift) }
{
    if place == 0 {
        worker(alloc, 50, failing)
    } else {
        worker(alloc, moment, &[])
    }
}

// So many workers.
fn workers(
    alloc: Global,
    count: u64,
    moment: u64,
    failing: &[u64],
) -> Result<Vec<Worker<ListedDoor, SteadyClock, SteadyObjects>>, AllocError>
    ensures count { IfOk result (λ workers. length workers.items ≡ count) }
    ensures empty { IfOk result (λ workers. All (λ w. IsEmpty w.shift) workers.items) }
{
    let mut workers = Vec::new(alloc);
    'workers: for i in 0..count {
        workers.push(worker_at(alloc, i, moment, failing)?)?;
    }
    Ok(workers)
}

// How many workers the words of an edge ask for, and 0 where they are none of an edge.
#[tactic(auto, using(crate::proofs::Programs::asked_for))]
fn asked_for(words: &[String]) -> u64
    ensures { IfSome (edge_of (map (λ w. string_bytes w) words.now)) (λ of. result ≡ of.workers) }
{
    match edge_of(words) {
        Some(edge) => edge.workers,
        None => 0,
    }
}

// Runs an edge of two workers, the second of them at this moment and the asks of the first door failing so, and
// answers the status, what was written, and how many connections were given back.
fn serves<R: Threads + Wait + Sync + AllocGlobal>(
    rt: &R,
    conf: &str,
    moment: u64,
    failing: &[u64],
) -> Result<(Status, Vec<u8>, usize), AllocError> {
    let alloc = rt.alloc();
    let words = words_of(alloc, &["edge", "c.json", "127.0.0.1:80", "2", "1", "."])?;
    let mut outside = Outside {
        files: SteadyFiles::new(alloc, one_file(alloc, conf)?),
        input: SteadySource::new(Vec::new(alloc)),
        out: ListedSink::new(alloc, Vec::new(alloc)),
        workers: workers(alloc, asked_for(&words), moment, failing)?,
        link: SteadyLink::new(alloc, Vec::new(alloc)),
        bench: PlainBench::new(),
        kit: Kit::new(is_any, equals, is_one_of, is_at_most, is_path_prefix),
    };
    let status = run(rt, alloc, &words, &mut outside);
    let mut back: usize = 0;
    for worker in &outside.workers {
        back = back.saturating_add(worker.door.back().len());
    }
    Ok((status, outside.out.bytes().to_vec(alloc)?, back))
}

#[test]
fn an_edge_tells_what_its_workers_served(rt: HostRuntime) -> Result<(), Fail> {
    let none: &[u64] = &[];
    let rows: [(&str, u64, &[u64], Status, &[u8], usize); 4] = [
        (
            CONF,
            50,
            none,
            Status::Done,
            b"1 1 admitted 200 http://h/v\n1 1 end Closed\n2 1 admitted 200 http://h/v\n2 1 end Closed\n\
            edge e calls 0\n",
            2,
        ),
        (
            CONF,
            100,
            none,
            Status::Denials,
            b"1 1 admitted 200 http://h/v\n1 1 end Closed\n2 1 denied 13 Expired http://h/v\n2 1 end Closed\n\
            edge e calls 0\n",
            2,
        ),
        (
            CONF,
            50,
            &[0],
            Status::Outside,
            b"2 1 admitted 200 http://h/v\n2 1 end Closed\nedge e calls 0\n",
            1,
        ),
        ("{}", 50, none, Status::Refused, b"refused conf edge\n", 0),
    ];
    for (conf, moment, failing, status, written, back) in rows {
        let (ended, text, given_back) = serves(&rt, conf, moment, failing)?;
        assert_eq!(rt; ended, status);
        assert_eq!(rt; text.as_slice(), written);
        assert_eq!(rt; given_back, back);
    }
    Ok(())
}

#[test]
fn words_of_an_edge_have_their_numbers_in_range(rt: HostRuntime) -> Result<(), Fail> {
    let alloc = rt.alloc();
    let rows: [(&str, &str, Option<usize>); 10] = [
        ("1", "1", Some(1)),
        ("16", "100000", Some(16)),
        ("0", "1", None),
        ("17", "1", None),
        ("1", "0", None),
        ("1", "100001", None),
        ("01", "1", None),
        ("1", "1 ", None),
        ("-1", "1", None),
        ("", "1", None),
    ];
    for (workers, connections, count) in rows {
        let words = words_of(
            alloc,
            &["edge", "c.json", "h:80", workers, connections, "."],
        )?;
        assert_eq!(rt; edge_words(&words), count);
    }
    Ok(())
}
