//! The forms in memory, each through its trait.
ghost use Rattle.std.specs.Prelude.{◌≡◌, IfOk};
ghost use Rattle.usp_base.specs.WireMemory.{IsFreshSteadyWire, IsFreshWire};

use crate::{
    Clock, Door, Failed, Files, Link, ListedClock, ListedDoor, ListedFiles, ListedLink,
    ListedObjects, ListedSink, ListedSource, ListedWire, LoadFault, MemoryFile, Objects, Octets,
    Rows, Sink, Source, Status, SteadyClock, SteadyDoor, SteadyFiles, SteadyLink, SteadyObjects,
    SteadySink, SteadySource, SteadyWire, Wire, first_line, is_digit, trim_blanks,
};
use std::alloc::{AllocError, Global};
use std::process::ExitCode;
use std::test::Fail;

// Up to three reads of 4 bytes, each as its count, or None where it failed.
fn counts_of<S: Source>(source: &mut S) -> [Option<usize>; 3] {
    let mut counts = [None; 3];
    for count in counts.iter_mut() {
        let mut buffer = [0u8; 4];
        *count = source.read(&mut buffer).ok();
    }
    counts
}

#[test]
fn a_source_gives_its_bytes_in_order_and_fails_where_it_is_told_to(
    rt: HostRuntime,
) -> Result<(), Fail> {
    let alloc = rt.alloc();
    let mut steady = SteadySource::new(b"abcdef".to_vec(alloc)?);
    assert_eq!(rt; counts_of(&mut steady), [Some(4), Some(2), Some(0)]);
    assert_eq!(rt; steady.read_faults(), 0);
    let mut failing = Vec::new(alloc);
    failing.push(1)?;
    let mut listed = ListedSource::new(b"abcdef".to_vec(alloc)?, 3, failing);
    assert_eq!(rt; counts_of(&mut listed), [Some(3), None, Some(3)]);
    assert_eq!(rt; listed.read_faults(), 1);
    Ok(())
}

// Puts two pieces, and answers how they went.
fn put_both<K: Sink>(sink: &mut K) -> (Result<(), Failed>, Result<(), Failed>) {
    let first = sink.put(b"abcd");
    let second = sink.put(b"ef");
    (first, second)
}

#[test]
fn a_sink_keeps_what_was_put_and_half_of_what_failed(rt: HostRuntime) -> Result<(), Fail> {
    let alloc = rt.alloc();
    let mut failing = Vec::new(alloc);
    failing.push(0)?;
    let mut listed = ListedSink::new(alloc, failing);
    assert_eq!(rt; put_both(&mut listed), (Err(Failed), Ok(())));
    assert_eq!(rt; listed.bytes(), b"abef".as_slice());
    assert_eq!(rt; listed.put_faults(), 1);
    let mut steady = SteadySink::new();
    assert_eq!(rt; put_both(&mut steady), (Ok(()), Ok(())));
    assert_eq!(rt; steady.put_faults(), 0);
    Ok(())
}

fn one_file(alloc: Global) -> Result<Vec<MemoryFile>, AllocError> {
    let mut files = Vec::new(alloc);
    let file = MemoryFile {
        name: Octets::of(b"c.json".to_vec(alloc)?),
        bytes: Octets::of(b"{}".to_vec(alloc)?),
    };
    files.push(file)?;
    Ok(files)
}

// Whether the file is found with its bytes, and a missing one is a fault.
fn finds_one<F: Files>(alloc: Global, files: &mut F) -> bool {
    let found = match files.load(alloc, "c.json") {
        Ok(bytes) => bytes.as_slice() == b"{}".as_slice(),
        Err(_) => false,
    };
    let missing = match files.load(alloc, "d.json") {
        Ok(_) => false,
        Err(fault) => fault == LoadFault::Failed,
    };
    found && missing
}

#[test]
fn a_missing_file_is_a_counted_fault(rt: HostRuntime) -> Result<(), Fail> {
    let alloc = rt.alloc();
    let mut steady = SteadyFiles::new(alloc, one_file(alloc)?);
    assert!(rt; finds_one(alloc, &mut steady));
    assert_eq!(rt; steady.file_faults(), 1);
    let mut failing = Vec::new(alloc);
    failing.push(0)?;
    let mut listed = ListedFiles::new(alloc, one_file(alloc)?, failing);
    assert!(rt; !finds_one(alloc, &mut listed));
    assert_eq!(rt; listed.file_faults(), 2);
    Ok(())
}

#[test]
fn small_types_keep_their_values(rt: HostRuntime) -> Result<(), Fail> {
    let alloc = rt.alloc();
    let octets = Octets::of(b"ab".to_vec(alloc)?);
    assert_eq!(rt; octets.bytes(), b"ab".as_slice());
    let mut numbers = Vec::new(alloc);
    numbers.push(7u64)?;
    assert_eq!(rt; Rows::of(numbers).rows().len(), 1);
    Ok(())
}

#[test]
fn spaces_and_tabs_go_from_both_ends(rt: HostRuntime) -> Result<(), Fail> {
    let rows = [
        ("a", "a"),
        (" \ta b\t ", "a b"),
        ("a \t b", "a \t b"),
        ("\n a ", "\n a"),
        ("\u{a0}a", "\u{a0}a"),
        (" \t", ""),
        ("", ""),
    ];
    for (text, expected) in rows {
        assert_eq!(rt; trim_blanks(text.as_bytes()), expected.as_bytes(), "{text}");
    }
    Ok(())
}

#[test]
fn a_status_has_its_number_and_its_exit_code(rt: HostRuntime) -> Result<(), Fail> {
    let rows = [
        (Status::Done, 0),
        (Status::Denials, 1),
        (Status::Words, 2),
        (Status::Refused, 3),
        (Status::Outside, 4),
        (Status::Memory, 5),
    ];
    for (status, number) in rows {
        assert_eq!(rt; status.number(), number);
        assert_eq!(rt; status.exit_code(), ExitCode::from(number));
    }
    Ok(())
}

#[test]
fn digits_are_the_ten_bytes(rt: HostRuntime) -> Result<(), Fail> {
    let rows = [
        (b'/', false),
        (b'0', true),
        (b'9', true),
        (b':', false),
        (b'a', false),
        (0xb2, false),
    ];
    for (byte, expected) in rows {
        assert_eq!(rt; is_digit(byte), expected);
    }
    Ok(())
}

#[test]
fn a_line_ends_with_lf_or_cr_lf_or_the_text(rt: HostRuntime) -> Result<(), Fail> {
    let rows = [
        ("a", "a", ""),
        ("a\n", "a", ""),
        ("a\r\nb", "a", "b"),
        ("a\r\r\nb\n", "a\r", "b\n"),
        ("a\r", "a\r", ""),
        ("\n\n", "", "\n"),
        ("\r\nb", "", "b"),
        ("a\rb\nc", "a\rb", "c"),
    ];
    for (text, line, rest) in rows {
        assert_eq!(rt;
            first_line(text.as_bytes()),
            (line.as_bytes(), rest.as_bytes()),
            "{text}"
        );
    }
    Ok(())
}

// Three moments of the clock.
fn three_moments<C: Clock>(clock: &mut C) -> [u64; 3] {
    [clock.now(), clock.now(), clock.now()]
}

#[test]
fn a_clock_gives_its_moments_and_then_stands_still(rt: HostRuntime) -> Result<(), Fail> {
    let alloc = rt.alloc();
    assert_eq!(rt; three_moments(&mut SteadyClock::new(7)), [7, 7, 7]);
    let mut moments = Vec::new(alloc);
    moments.push(9)?;
    moments.push(4)?;
    assert_eq!(rt; three_moments(&mut ListedClock::new(moments)), [9, 4, 4]);
    Ok(())
}

// What two reads of the object a, and one of b, answer.
fn three_objects<O: Objects>(alloc: Global, objects: &mut O) -> [Option<usize>; 3] {
    let mut lengths = [None; 3];
    let uris = [b"http://h/a", b"http://h/a", b"http://h/b"];
    for (length, uri) in lengths.iter_mut().zip(uris) {
        *length = match objects.read(alloc, uri) {
            Ok(Some(bytes)) => Some(bytes.len()),
            Ok(None) => Some(0),
            Err(_) => None,
        };
    }
    lengths
}

fn one_object(alloc: Global) -> Result<Vec<MemoryFile>, AllocError> {
    let mut objects = Vec::new(alloc);
    let object = MemoryFile {
        name: Octets::of(b"http://h/a".to_vec(alloc)?),
        bytes: Octets::of(b"film".to_vec(alloc)?),
    };
    objects.push(object)?;
    Ok(objects)
}

#[test]
fn an_object_is_found_or_absent_or_its_read_fails(rt: HostRuntime) -> Result<(), Fail> {
    let alloc = rt.alloc();
    let mut steady = SteadyObjects::new(one_object(alloc)?);
    assert_eq!(rt;
        three_objects(alloc, &mut steady),
        [Some(4), Some(4), Some(0)]
    );
    assert_eq!(rt; steady.object_faults(), 0);
    let mut failing = Vec::new(alloc);
    failing.push(1)?;
    let mut listed = ListedObjects::new(one_object(alloc)?, failing);
    assert_eq!(rt; three_objects(alloc, &mut listed), [Some(4), None, Some(0)]);
    assert_eq!(rt; listed.object_faults(), 1);
    Ok(())
}

// A read, a put and a read: how many bytes came, whether the piece went, how many bytes came.
fn read_put_read<W: Wire>(wire: &mut W) -> (Option<usize>, bool, Option<usize>) {
    let mut buffer = [0u8; 4];
    let first = wire.read(&mut buffer).ok();
    let put = wire.put(b"ok").is_ok();
    (first, put, wire.read(&mut buffer).ok())
}

fn listed_wire(alloc: Global, bytes: &[u8], failing: Vec<u64>) -> Result<ListedWire, AllocError>
    ensures { IfOk result (λ wire. IsFreshWire wire) }
{
    Ok(ListedWire {
        source: ListedSource::new(bytes.to_vec(alloc)?, 3, failing),
        sink: ListedSink::new(alloc, Vec::new(alloc)),
    })
}

fn steady_wire(alloc: Global, bytes: &[u8]) -> Result<SteadyWire, AllocError>
    ensures { IfOk result (λ wire. IsFreshSteadyWire wire) }
{
    Ok(SteadyWire {
        source: SteadySource::new(bytes.to_vec(alloc)?),
        sink: SteadySink::new(),
    })
}

#[test]
fn a_connection_reads_and_puts_apart(rt: HostRuntime) -> Result<(), Fail> {
    let alloc = rt.alloc();
    let mut steady = steady_wire(alloc, b"abcdef")?;
    assert_eq!(rt; read_put_read(&mut steady), (Some(4), true, Some(2)));
    assert_eq!(rt; (steady.read_faults(), steady.put_faults()), (0, 0));
    let mut failing = Vec::new(alloc);
    failing.push(0)?;
    let mut listed = listed_wire(alloc, b"abcdef", failing)?;
    assert_eq!(rt; read_put_read(&mut listed), (None, true, Some(3)));
    assert_eq!(rt; (listed.read_faults(), listed.put_faults()), (1, 0));
    assert_eq!(rt; listed.sink.bytes(), b"ok".as_slice());
    Ok(())
}

// Asks the door three times, reads from each line and gives it back: how many bytes came of each.
// None says that the door failed or had no more.
fn three_visits<D: Door>(door: &mut D) -> [Option<usize>; 3]
    requires { D.lines_out door.old ≡ 0 }
{
    [visit(door), visit(door), visit(door)]
}

fn visit<D: Door>(door: &mut D) -> Option<usize>
    requires { D.lines_out door.old ≡ 0 }
    ensures { D.lines_out door.new ≡ 0 }
{
    match door.next() {
        Ok(Some(line)) => {
            let mut line = line;
            let mut buffer = [0u8; 4];
            let count = line.read(&mut buffer).unwrap_or(0);
            let _ = line.put(b"ok");
            door.give_back(line);
            Some(count)
        }
        Ok(None) => None,
        Err(_) => None,
    }
}

#[test]
fn a_door_gives_its_lines_in_order_and_takes_them_back(rt: HostRuntime) -> Result<(), Fail> {
    let alloc = rt.alloc();
    let mut steady = SteadyDoor::new(alloc);
    steady.add(steady_wire(alloc, b"ab")?)?;
    steady.add(steady_wire(alloc, b"c")?)?;
    assert_eq!(rt; three_visits(&mut steady), [Some(2), Some(1), None]);
    assert_eq!(rt; steady.door_faults(), 0);
    let mut failing = Vec::new(alloc);
    failing.push(1)?;
    let mut listed = ListedDoor::new(alloc, failing);
    listed.add(listed_wire(alloc, b"ab", Vec::new(alloc))?)?;
    listed.add(listed_wire(alloc, b"c", Vec::new(alloc))?)?;
    assert_eq!(rt; three_visits(&mut listed), [Some(2), None, Some(1)]);
    assert_eq!(rt; listed.door_faults(), 1);
    assert_eq!(rt; listed.back().len(), 2);
    assert_eq!(rt; listed.back()[1].sink.bytes(), b"ok".as_slice());
    Ok(())
}

// How many bytes each of three asks is answered, or None where it failed.
fn three_asks<L: Link>(alloc: Global, link: &mut L) -> [Option<usize>; 3] {
    let mut lengths = [None; 3];
    for length in lengths.iter_mut() {
        *length = match link.ask(alloc, b"h:80", b"GET / HTTP/1.1\r\n\r\n") {
            Ok(bytes) => Some(bytes.len()),
            Err(_) => None,
        };
    }
    lengths
}

fn two_answers(alloc: Global) -> Result<Vec<Octets>, AllocError> {
    let mut answers = Vec::new(alloc);
    answers.push(Octets::of(b"one".to_vec(alloc)?))?;
    answers.push(Octets::of(b"second".to_vec(alloc)?))?;
    Ok(answers)
}

#[test]
fn a_link_answers_in_order_and_notes_its_asks(rt: HostRuntime) -> Result<(), Fail> {
    let alloc = rt.alloc();
    let mut steady = SteadyLink::new(alloc, two_answers(alloc)?);
    assert_eq!(rt; three_asks(alloc, &mut steady), [Some(3), Some(6), Some(0)]);
    assert_eq!(rt; steady.link_faults(), 0);
    assert_eq!(rt; steady.asks().len(), 3);
    let mut failing = Vec::new(alloc);
    failing.push(1)?;
    let mut listed = ListedLink::new(alloc, two_answers(alloc)?, failing);
    assert_eq!(rt; three_asks(alloc, &mut listed), [Some(3), None, Some(6)]);
    assert_eq!(rt; three_asks(alloc, &mut listed), [None, None, None]);
    assert_eq!(rt; listed.link_faults(), 4);
    assert_eq!(rt; listed.asks().len(), 6);
    Ok(())
}

#[test]
fn faults_say_what_to_mend(rt: HostRuntime) -> Result<(), Fail> {
    let alloc = rt.alloc();
    assert!(rt; LoadFault::NoMemory.is_memory() && !LoadFault::Failed.is_memory());
    let text = format!(in alloc; "{}", LoadFault::NoMemory)?;
    assert_eq!(rt; text.as_str(), "out of memory: try again with more");
    assert!(rt; format!(in alloc; "{Failed}")?.len() > 0);
    Ok(())
}
