//! An hour of segments, played through two edges: the first renews its tokens and sends every second request on to the
//! second.
use crate::edge::{Worker, clear_shifts, edge_words};
use crate::run::{Outside, run};
use crate::tests::words_of;
use std::alloc::{AllocError, Global};
use std::test::Fail;
use usp_base::{
    LONGEST_ANSWER, Link, ListedSink, ListedSource, ListedWire, LoadFault, MemoryFile, Octets,
    Status, SteadyClock, SteadyDoor, SteadyFiles, SteadyObjects, SteadySource, cut_at, first_line,
};
use usp_conf::{Conf, read_conf};
use usp_edge::{Edge, MAX_HEADS, Nonces, serve_connection};
use usp_ext::{Kit, equals, is_any, is_at_most, is_one_of, is_path_prefix};
use usp_jws::{Key, MAX_PAYLOAD, seal};
use usp_lab::PlainBench;
use usp_nonce::NonceTable;

const A: &[u8] = b"{\"edge\":\"a\",\"scheme\":\"https\",\
    \"keys\":[{\"kid\":\"kp\",\"issuer\":\"cp\",\"secret\":\"AQEBAQEBAQEBAQEBAQEBAQEBAQEBAQEBAQEBAQEBAQE\"},\
    {\"kid\":\"ka\",\"issuer\":\"cdn-a\",\"secret\":\"AgICAgICAgICAgICAgICAgICAgICAgICAgICAgICAgI\"}],\
    \"issuers\":[\"cp\",\"cdn-a\"],\"audience\":[\"cdn-a\"],\"sign_kid\":\"ka\",\
    \"routes\":[{\"prefix\":\"/b/\",\"scheme\":\"https\",\"authority\":\"b.example\",\"kid\":\"kab\",\
    \"issuer\":\"cdn-a\",\"secret\":\"AwMDAwMDAwMDAwMDAwMDAwMDAwMDAwMDAwMDAwMDAwM\",\"audience\":\"cdn-b\"}]}";

const B: &[u8] = b"{\"edge\":\"b\",\"scheme\":\"https\",\
    \"keys\":[{\"kid\":\"kab\",\"issuer\":\"cdn-a\",\"secret\":\"AwMDAwMDAwMDAwMDAwMDAwMDAwMDAwMDAwMDAwMDAwM\"},\
    {\"kid\":\"kb\",\"issuer\":\"cdn-b\",\"secret\":\"BAQEBAQEBAQEBAQEBAQEBAQEBAQEBAQEBAQEBAQEBAQ\"}],\
    \"issuers\":[\"cdn-a\",\"cdn-b\"],\"audience\":[\"cdn-b\"],\"sign_kid\":\"kb\"}";

// The claims of the provider's grant. The window of each token is 30 seconds, and the playlist lasts an hour.
const GRANT: &str =
    "{\"iss\":\"cp\",\"aud\":\"cdn-a\",\"exp\":1030,\"nbf\":900,\"jti\":\"n1\",\"cdniets\":30,\"cdnistt\":1,\
    \"cdnistd\":0,\"cdniuc\":\"regex:^https://[ab][.]example/\"}";

// Which server answers which authority.
const MAP: &[u8] = b"a.example first\nb.example second\n";

const SEGMENTS: u64 = 600;

// An edge, with its nonces and its objects.
#[derive(Drop)]
struct Server {
    conf: Conf,
    nonces: NonceTable,
    objects: SteadyObjects,
}

impl Server {
    fn new(alloc: Global, conf: &[u8], objects: Vec<MemoryFile>) -> Result<Server, Fail> {
        let conf = read_conf(alloc, conf)?;
        Ok(Server {
            nonces: NonceTable::with_room(alloc, conf.room())?,
            conf,
            objects: SteadyObjects::new(objects),
        })
    }

    // Serves one connection at a moment, and answers what was put on it. None says that the nonces are used up.
    fn serve(
        &mut self,
        alloc: Global,
        moment: u64,
        head: &[u8],
    ) -> Result<Option<Vec<u8>>, AllocError> {
        if self.nonces.left() < MAX_HEADS {
            return Ok(None);
        }
        let kit = Kit::new(is_any, equals, is_one_of, is_at_most, is_path_prefix);
        let edge = Edge {
            alloc,
            kit: &kit,
            conf: &self.conf,
        };
        let mut wire = ListedWire {
            source: ListedSource::new(head.to_vec(alloc)?, 4096, Vec::new(alloc)),
            sink: ListedSink::new(alloc, Vec::new(alloc)),
        };
        let mut clock = SteadyClock::new(moment.min(1_000_000));
        let mut notes = Vec::new(alloc);
        serve_connection(
            &edge,
            &mut wire,
            &mut self.nonces,
            &mut clock,
            &mut self.objects,
            &mut notes,
        );
        Ok(Some(wire.sink.bytes().to_vec(alloc)?))
    }
}

// Two edges in the place of a network. Each request of the first moves the clock on by the length of a segment.
#[derive(Drop)]
struct Edges {
    first: Server,
    second: Server,
    moment: u64,
    faults: u64,
}

impl Link for Edges {
    ghost use Rattle.std.specs.Prelude.{None};

    ghost asks = { λ _. None };

    ghost link_count = { λ edges. edges.faults };

    fn ask(&mut self, alloc: Global, address: &[u8], head: &[u8]) -> Result<Vec<u8>, LoadFault> {
        let moment = self.moment;
        let answer = if address == b"first".as_slice() {
            self.moment = moment.saturating_add(6);
            self.first.serve(alloc, moment, head)?
        } else {
            self.second.serve(alloc, moment, head)?
        };
        if let Some(bytes) = answer {
            if bytes.len() <= LONGEST_ANSWER {
                return Ok(bytes);
            }
        }
        self.faults = self.faults.saturating_add(1);
        Err(LoadFault::Failed)
    }

    fn link_faults(&self) -> u64 {
        self.faults
    }
}

// The path of a segment: every second one stands at the second edge.
fn path_of(alloc: Global, segment: u64) -> Result<String, AllocError> {
    if segment % 2 == 0 {
        format!(in alloc; "/b/s{segment}.ts")
    } else {
        format!(in alloc; "/v/s{segment}.ts")
    }
}

fn playlist(alloc: Global) -> Result<String, AllocError> {
    let mut text = String::from_str(
        alloc,
        "#EXTM3U\n#EXT-X-VERSION:7\n#EXT-X-TARGETDURATION:6\n#EXT-X-PLAYLIST-TYPE:VOD\n\
        #EXT-X-MAP:URI=\"/v/init.mp4\"\n",
    )?;
    for segment in 1..=SEGMENTS {
        let path = path_of(alloc, segment)?;
        text.push_str(&format!(in alloc; "#EXTINF:5.97{},\n{path}\n", segment % 10)?)?;
    }
    text.push_str("#EXT-X-ENDLIST\n")?;
    Ok(text)
}

fn object(alloc: Global, uri: &str, bytes: &[u8]) -> Result<MemoryFile, AllocError> {
    Ok(MemoryFile {
        name: Octets::of(uri.as_bytes().to_vec(alloc)?),
        bytes: Octets::of(bytes.to_vec(alloc)?),
    })
}

// The two edges with the playlist and each its segments, at the moment 1000.
fn two_edges(alloc: Global) -> Result<Edges, Fail> {
    let mut first = Vec::new(alloc);
    let mut second = Vec::new(alloc);
    let list = playlist(alloc)?;
    first.push(object(alloc, "https://a.example/v/list.m3u8", list.as_bytes())?)?;
    for segment in 1..=SEGMENTS {
        let path = path_of(alloc, segment)?;
        if segment % 2 == 0 {
            let uri = format!(in alloc; "https://b.example{path}")?;
            second.push(object(alloc, &uri, b"media")?)?;
        } else {
            let uri = format!(in alloc; "https://a.example{path}")?;
            first.push(object(alloc, &uri, b"media")?)?;
        }
    }
    Ok(Edges {
        first: Server::new(alloc, A, first)?,
        second: Server::new(alloc, B, second)?,
        moment: 1_000,
        faults: 0,
    })
}

// The playlist's URI, with the provider's grant in it.
fn granted(alloc: Global) -> Result<String, Fail> {
    if GRANT.len() > MAX_PAYLOAD {
        return Err(Fail::new("claims that are too long to seal"));
    }
    let key = Key::new(alloc, b"kp", b"cp", &[1; 32])?;
    let token = seal(alloc, &key, GRANT.as_bytes())?;
    let mut uri = b"https://a.example/v/list.m3u8?URISigningPackage=".to_vec(alloc)?;
    uri.extend_from_slice(token.text())?;
    Ok(String::from_utf8(uri)?)
}

// How many lines tell a request of this status.
fn count_of(text: &[u8], status: &[u8]) -> u64 {
    let mut count: u64 = 0;
    let mut rest = text;
    for _ in 0..text.len() {
        if rest.is_empty() {
            return count;
        }
        let (line, more) = first_line(rest);
        if let Some((_, told)) = cut_at(line, b' ') {
            if told.starts_with(status) {
                count = count.saturating_add(1);
            }
        }
        rest = more;
    }
    count
}

#[test]
fn an_hour_is_played_through_two_edges(rt: HostRuntime) -> Result<(), Fail> {
    let alloc = rt.alloc();
    let uri = granted(alloc)?;
    let words = words_of(alloc, &["play", &uri, "m"])?;
    let mut files = Vec::new(alloc);
    files.push(MemoryFile {
        name: Octets::of(b"m".to_vec(alloc)?),
        bytes: Octets::of(MAP.to_vec(alloc)?),
    })?;
    let workers: Vec<Worker<SteadyDoor, SteadyClock, SteadyObjects>> = Vec::new(alloc);
    let mut outside = Outside {
        files: SteadyFiles::new(alloc, files),
        input: SteadySource::new(Vec::new(alloc)),
        out: ListedSink::new(alloc, Vec::new(alloc)),
        workers,
        link: two_edges(alloc)?,
        bench: PlainBench::new(),
        kit: Kit::new(is_any, equals, is_one_of, is_at_most, is_path_prefix),
    };
    assert!(rt; edge_words(&words).is_none());
    clear_shifts(outside.workers.as_mut_slice());
    let status = run(&rt, alloc, &words, &mut outside);
    assert_eq!(rt; status, Status::Done);
    let text = outside.out.bytes();
    assert!(rt;
        text.ends_with(b"302 a.example /b/s600.ts\n901 200 b.example /b/s600.ts\nplayed 600\n")
    );
    assert_eq!(rt; count_of(text, b"200 "), 601);
    assert_eq!(rt; count_of(text, b"302 "), 300);
    assert_eq!(rt; count_of(text, b""), 902);
    assert_eq!(rt; outside.link.moment, 1_000 + 601 * 6);
    Ok(())
}
