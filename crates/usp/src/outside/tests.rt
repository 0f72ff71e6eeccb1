//! The adapters over what the system has, and over a clock and clients in memory.
mod served;
mod visits;

use super::{Folder, FolderObjects, SystemClock, TcpLink};
use std::alloc::Global;
use std::io::{Error, ErrorKind, Read, Result as IoResult, Write};
use std::net::{SocketAddr, TcpListener};
use std::os::unix::fs::symlink;
use std::test::Fail;
use std::time::Duration;
use std::{fs, thread};
use usp_base::{Clock, Files, Link, LoadFault, MOMENT_BOUND, Objects};

// A clock that reads so many seconds since 1970, or fails.
#[derive(Drop)]
struct Watch {
    reading: Result<u64, ErrorKind>,
}

impl std::rt::Clock for Watch {
    fn monotonic(&self) -> IoResult<Duration> {
        Err(Error::from(ErrorKind::Unsupported))
    }

    fn since_1970(&self) -> IoResult<Duration> {
        match self.reading {
            Ok(seconds) => Ok(Duration::new(seconds, 999_999_999)),
            Err(kind) => Err(Error::from(kind)),
        }
    }
}

#[test]
fn a_file_is_loaded_and_a_missing_one_is_counted(rt: HostRuntime) -> Result<(), Fail> {
    let alloc = rt.alloc();
    let name = "folder_test.txt";
    fs::write(&rt, name, b"abc")?;
    let mut files = Folder::new(&rt);
    let loaded = files.load(alloc, name);
    fs::remove_file(&rt, name)?;
    match loaded {
        Ok(bytes) => assert_eq!(rt; bytes.as_slice(), b"abc".as_slice()),
        Err(_) => assert!(rt; false),
    }
    assert!(rt; matches!(files.load(alloc, "missing.json"), Err(LoadFault::Failed)));
    assert_eq!(rt; files.file_faults(), 1);
    Ok(())
}

#[test]
fn the_clock_tells_whole_seconds_within_its_bounds(rt: HostRuntime) -> Result<(), Fail> {
    let last = MOMENT_BOUND - 1;
    for (reading, moment) in [
        (Ok(0), 0),
        (Ok(50), 50),
        (Ok(last), last),
        (Ok(MOMENT_BOUND), last),
        (Ok(u64::MAX), last),
        (Err(ErrorKind::InvalidData), 0),
        (Err(ErrorKind::PermissionDenied), last),
    ] {
        let watch = Watch { reading };
        assert_eq!(rt; SystemClock::new(&watch).now(), moment, "at {reading:?}");
    }
    let now = SystemClock::new(&rt).now();
    assert!(rt; 1_700_000_000 < now && now < last);
    Ok(())
}

// A folder with two files, a folder, and links; and a file beside it.
fn lay_out(rt: &HostRuntime, folder: &str) -> Result<(), Fail> {
    fs::create_dir_all(rt, folder)?;
    fs::write(rt, "objects_test/beside", b"secret")?;
    fs::write(rt, "objects_test/top/a.txt", b"abc")?;
    fs::create_dir_all(rt, "objects_test/top/sub")?;
    fs::write(rt, "objects_test/top/sub/b c", b"")?;
    symlink(rt, "../beside", "objects_test/top/out")?;
    symlink(rt, "..", "objects_test/top/up")?;
    symlink(rt, "sub/../a.txt", "objects_test/top/in")?;
    symlink(rt, "nothing", "objects_test/top/broken")?;
    symlink(rt, "round", "objects_test/top/round")?;
    Ok(())
}

fn uri_of(alloc: Global, path: &str) -> Result<String, Fail> {
    let mut uri = String::from_str(alloc, "http://h:8080")?;
    uri.push_str(path)?;
    Ok(uri)
}

#[test]
fn an_object_is_a_file_below_the_folder_alone(rt: HostRuntime) -> Result<(), Fail> {
    let alloc = rt.alloc();
    let folder = "objects_test/top";
    let _ = fs::remove_dir_all(&rt, "objects_test");
    lay_out(&rt, folder)?;
    let mut objects = FolderObjects::new(&rt, folder);
    for (path, wanted) in [
        ("/a.txt", Some("abc")),
        ("/a.txt?x=/../b", Some("abc")),
        ("/%61.txt", Some("abc")),
        ("/sub/b%20c", Some("")),
        ("/in", Some("abc")),
        ("", None),
        ("/", None),
        ("/sub", None),
        ("/sub/", None),
        ("/b", None),
        ("/a.txt/", None),
        ("//a.txt", None),
        ("/./a.txt", None),
        ("/sub/../a.txt", None),
        ("/../beside", None),
        ("/%2e%2E/beside", None),
        ("/..%2Fbeside", None),
        ("/sub%2Fb%20c", None),
        ("/a.txt%00", None),
        ("/a.txt%", None),
        ("/%FF", None),
        ("/out", None),
        ("/up/beside", None),
        ("/up/top/a.txt", Some("abc")),
        ("/broken", None),
    ] {
        let uri = uri_of(alloc, path)?;
        match objects.read(alloc, uri.as_bytes()) {
            Ok(Some(bytes)) => {
                assert!(rt;
                    wanted.map(|text| text.as_bytes()) == Some(bytes.as_slice()),
                    "{path}"
                )
            }
            Ok(None) => assert!(rt; wanted.is_none(), "{path}"),
            Err(_) => assert!(rt; false, "{path}"),
        }
    }
    assert_eq!(rt; objects.object_faults(), 0);
    let round = objects.read(alloc, b"http://h/round");
    let below = objects.read(alloc, b"http://h/a.txt/b");
    fs::remove_dir_all(&rt, "objects_test")?;
    assert!(rt; matches!(round, Err(LoadFault::Failed)));
    assert!(rt; matches!(below, Err(LoadFault::Failed)));
    assert_eq!(rt; objects.object_faults(), 2);
    assert!(rt; matches!(objects.read(alloc, b"http://h/a.txt"), Ok(None)));
    // A folder without a name is no folder.
    let mut nowhere = FolderObjects::new(&rt, "");
    assert!(rt; matches!(nowhere.read(alloc, b"http://h/etc/hostname"), Ok(None)));
    Ok(())
}

#[test]
fn a_file_that_grows_while_it_is_read_is_a_fault(rt: HostRuntime) -> Result<(), Fail> {
    let alloc = rt.alloc();
    // The system says of this file that it is empty, and gives bytes.
    let mut objects = FolderObjects::new(&rt, "/proc");
    let read = objects.read(alloc, b"http://h/version");
    assert!(rt; matches!(read, Err(LoadFault::Failed)));
    assert_eq!(rt; objects.object_faults(), 1);
    Ok(())
}

// Answers each connection with the bytes after it has read something, and closes it.
fn answer_each(listener: &TcpListener, bytes: &[u8], count: u8) -> bool {
    let mut heard = [0u8; 64];
    for _ in 0..count {
        let Ok((mut stream, _)) = listener.accept() else {
            return false;
        };
        let Ok(n) = stream.read(&mut heard) else {
            return false;
        };
        if &heard[..n] != b"GET / HTTP/1.1\r\n\r\n".as_slice() || stream.write_all(bytes).is_err() {
            return false;
        }
    }
    true
}

fn text_of(alloc: Global, address: SocketAddr) -> Result<String, Fail> {
    Ok(format!(in alloc; "{address}")?)
}

#[test]
fn a_link_gives_all_bytes_of_an_answer(rt: HostRuntime) -> Result<(), Fail> {
    let alloc = rt.alloc();
    let listener = TcpListener::bind(&rt, "127.0.0.1:0")?;
    let address = text_of(alloc, listener.local_addr()?)?;
    let head = b"GET / HTTP/1.1\r\n\r\n";
    let mut link = TcpLink::new(&rt);
    let asks = || {
        let first = link.ask(alloc, address.as_bytes(), head);
        let again = link.ask(alloc, address.as_bytes(), head);
        (first, again)
    };
    let (answered, (first, again)) = thread::join(
        &rt,
        || answer_each(&listener, b"HTTP/1.1 200 OK\r\n\r\nok", 2),
        asks,
    );
    assert!(rt; answered);
    for answer in [first, again] {
        match answer {
            Ok(bytes) => assert_eq!(rt; bytes.as_slice(), b"HTTP/1.1 200 OK\r\n\r\nok".as_slice()),
            Err(_) => assert!(rt; false),
        }
    }
    drop(listener);
    assert_eq!(rt; link.link_faults(), 0);
    for refused in [address.as_bytes(), b"127.0.0.1", b"\xff:80"] {
        assert!(rt; matches!(link.ask(alloc, refused, head), Err(LoadFault::Failed)));
    }
    assert_eq!(rt; link.link_faults(), 3);
    Ok(())
}
