//! Connections over TCP, with the client in a thread of its own.
use crate::outside::TcpDoor;
use std::alloc::{AllocError, Global};
use std::io::{Read, Result as IoResult, Write};
use std::net::{OpenStream, Shutdown, SocketAddr, TcpListener, TcpStream};
use std::rt::Net;
use std::test::Fail;
use std::thread;
use std::time::{Duration, Instant};
use usp_base::{Door, Failed, MemoryFile, Octets, SteadyClock, SteadyObjects, Wire};
use usp_conf::read_conf;
use usp_edge::{Edge, End, Verdict, serve_connection};
use usp_ext::{Kit, equals, is_any, is_at_most, is_one_of, is_path_prefix};
use usp_nonce::NonceTable;

const CONF: &[u8] = b"{\"edge\":\"e\",\"scheme\":\"http\",\
    \"keys\":[{\"kid\":\"k1\",\"issuer\":\"cp\",\"secret\":\"AQEBAQEBAQEBAQEBAQEBAQEBAQEBAQEBAQEBAQEBAQE\"}],\
    \"issuers\":[\"cp\"],\"audience\":[\"e\"],\"sign_kid\":\"k1\"}";

const REQUEST: &[u8] = b"GET /v?URISigningPackage=eyJhbGciOiJIUzI1NiIsImtpZCI6ImsxIn0.\
    eyJjZG5pdWMiOiJyZWdleDpeaHR0cDovL2gvIiwiZXhwIjoxMDB9.\
    R6n4EvhucaWsHO4LuXGGRnpRYGym4rn5XUCNSzc3iTA HTTP/1.1\r\nHost: h\r\n\r\n";

const OK: &[u8] = b"HTTP/1.1 200 OK\r\nContent-Length: 2\r\n\r\nok";

// Sends the bytes and no more, and puts what comes at the front of `heard`, up to the end.
fn talk<S: Read + Write + OpenStream>(
    stream: &mut S,
    bytes: &[u8],
    heard: &mut [u8],
) -> IoResult<usize> {
    stream.write_all(bytes)?;
    stream.shutdown(Shutdown::Write)?;
    let mut count = 0;
    for _ in 0..heard.len() {
        let Some(rest) = heard.get_mut(count..) else {
            break;
        };
        let n = stream.read(rest)?;
        if n == 0 {
            break;
        }
        count = count.saturating_add(n);
    }
    Ok(count)
}

// The same on a connection of its own.
fn converse<R: Net>(
    rt: &R,
    address: SocketAddr,
    bytes: &[u8],
    heard: &mut [u8],
) -> IoResult<usize> {
    let mut stream = TcpStream::connect(rt, address)?;
    talk(&mut stream, bytes, heard)
}

// Opens two connections, and talks on the second before the first.
fn converse_crosswise<R: Net>(rt: &R, address: SocketAddr) -> IoResult<bool> {
    let mut heard = [0u8; 16];
    let mut first = TcpStream::connect(rt, address)?;
    let mut second = TcpStream::connect(rt, address)?;
    let late = talk(&mut second, b"second", &mut heard)?;
    let second_is_whole = heard.get(..late) == Some(b"second".as_slice());
    let early = talk(&mut first, b"first", &mut heard)?;
    Ok(second_is_whole && heard.get(..early) == Some(b"first".as_slice()))
}

// Says back what comes, up to the end, and answers how much it was.
fn echo<W: Wire>(line: &mut W) -> Result<usize, Failed> {
    let mut bytes = [0u8; 16];
    let mut all = 0usize;
    for _ in 0..16 {
        let n = line.read(&mut bytes)?;
        if n == 0 {
            break;
        }
        line.put(&bytes[..n])?;
        all = all.saturating_add(n);
    }
    // It stays ended.
    all = all.saturating_add(line.read(&mut bytes)?);
    Ok(all)
}

// Takes one connection, and says back what comes on it.
fn echo_one<D: Door>(door: &mut D) -> Result<usize, Failed> {
    let Some(mut line) = door.next()? else {
        return Err(Failed);
    };
    let heard = echo(&mut line);
    door.give_back(line);
    heard
}

#[test]
fn doors_share_a_listener(rt: HostRuntime) -> Result<(), Fail> {
    let listener = TcpListener::bind(&rt, "127.0.0.1:0")?;
    let address = listener.local_addr()?;
    let mut doors = [
        TcpDoor::new(&rt, Some(&listener)),
        TcpDoor::new(&rt, Some(&listener)),
    ];
    for door in doors.iter_mut() {
        let mut heard = [0u8; 16];
        let (count, served) = thread::join(
            &rt,
            || match converse(&rt, address, b"hello", &mut heard) {
                Ok(count) => count,
                Err(_) => 0,
            },
            || echo_one(door),
        );
        assert_eq!(rt; served, Ok::<usize, Failed>(5));
        assert_eq!(rt; count, 5usize);
        assert_eq!(rt; &heard[..5], b"hello".as_slice());
        assert_eq!(rt; door.door_faults(), 0);
    }
    Ok(())
}

#[test]
fn doors_serve_side_by_side(rt: HostRuntime) -> Result<(), Fail> {
    let listener = TcpListener::bind(&rt, "127.0.0.1:0")?;
    let address = listener.local_addr()?;
    let mut doors = [
        TcpDoor::new(&rt, Some(&listener)),
        TcpDoor::new(&rt, Some(&listener)),
    ];
    let begun = Instant::now(&rt)?;
    let serve = || {
        thread::for_each_mut(
            &rt,
            &mut doors,
            2,
            &|_, door| {
                let _ = echo_one(door);
            },
        )
    };
    let (heard, _) = thread::join(
        &rt,
        || matches!(converse_crosswise(&rt, address), Ok(true)),
        serve,
    );
    assert!(rt; heard);
    // Neither waited until the other was taken as ended.
    assert!(rt; begun.elapsed(&rt)? < Duration::from_secs(3));
    for door in doors.iter() {
        assert_eq!(rt; door.door_faults(), 0);
    }
    Ok(())
}

#[test]
fn a_door_without_a_listener_fails_at_each_call(rt: HostRuntime) -> Result<(), Fail> {
    let mut door: TcpDoor<'_, HostRuntime, TcpListener> = TcpDoor::new(&rt, None);
    for count in 1..3u64 {
        assert!(rt; matches!(door.next(), Err(Failed)));
        assert_eq!(rt; door.door_faults(), count);
    }
    Ok(())
}

fn objects(alloc: Global) -> Result<SteadyObjects, AllocError> {
    let mut objects = Vec::new(alloc);
    objects.push(MemoryFile {
        name: Octets::of(Vec::from_slice(alloc, b"http://h/v")?),
        bytes: Octets::of(Vec::from_slice(alloc, b"ok")?),
    })?;
    Ok(SteadyObjects::new(objects))
}

// Serves the next connection of a door at the moment 50, and answers how it ended and how many of its notes admit.
// None where no connection came, or there was no memory.
fn serve_one<D: Door>(alloc: Global, door: &mut D) -> Option<(End, usize)> {
    let Ok(conf) = read_conf(alloc, CONF) else {
        return None;
    };
    let kit = Kit::new(is_any, equals, is_one_of, is_at_most, is_path_prefix);
    let edge = Edge {
        alloc,
        kit: &kit,
        conf: &conf,
    };
    let Ok(mut nonces) = NonceTable::with_room(alloc, 4) else {
        return None;
    };
    let Ok(mut objects) = objects(alloc) else {
        return None;
    };
    let mut clock = SteadyClock::new(50);
    let mut notes = Vec::new(alloc);
    let Ok(Some(mut line)) = door.next() else {
        return None;
    };
    let end = serve_connection(
        &edge,
        &mut line,
        &mut nonces,
        &mut clock,
        &mut objects,
        &mut notes,
    );
    door.give_back(line);
    let admitted = notes
        .iter()
        .filter(|note| note.verdict == Verdict::Admitted)
        .count();
    Some((end, admitted))
}

#[test]
fn one_connection_is_served_over_tcp(rt: HostRuntime) -> Result<(), Fail> {
    let alloc = rt.alloc();
    let listener = TcpListener::bind(&rt, "127.0.0.1:0")?;
    let address = listener.local_addr()?;
    let mut door = TcpDoor::new(&rt, Some(&listener));
    let mut heard = [0u8; 64];
    let client = || match converse(&rt, address, REQUEST, &mut heard) {
        Ok(count) => count,
        Err(_) => 0,
    };
    let (count, served) = thread::join(&rt, client, || serve_one(alloc, &mut door));
    assert!(rt; served == Some((End::Closed, 1)));
    assert!(rt; heard.get(..count) == Some(OK));
    Ok(())
}
