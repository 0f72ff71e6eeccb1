//! An edge, tokens for it, and connections that it serves.
ghost use Rattle.std.specs.Prelude.{◌≤◌};
ghost use Rattle.usp_edge.specs.declared.limits.TheConstants.{MAX_HEADS};

use crate::{Edge, End, Nonces, Note, serve_connection};
use std::alloc::Global;
use std::test::Fail;
use usp_base::{
    ListedObjects, ListedSink, ListedSource, ListedWire, MemoryFile, Octets, SteadyClock,
};
use usp_conf::read_conf;
use usp_ext::{Kit, equals, is_any, is_at_most, is_one_of, is_path_prefix};
use usp_jws::{Key, MAX_PAYLOAD, seal};
use usp_nonce::NonceTable;

// An edge `e` that accepts the tokens of `cp`, and sends what is below `/b/` on.
const CONF: &[u8] = b"{\"edge\":\"e\",\"scheme\":\"http\",\
    \"keys\":[{\"kid\":\"k1\",\"issuer\":\"cp\",\"secret\":\"AQEBAQEBAQEBAQEBAQEBAQEBAQEBAQEBAQEBAQEBAQE\"}],\
    \"issuers\":[\"cp\"],\"audience\":[\"e\"],\"sign_kid\":\"k1\",\
    \"routes\":[{\"prefix\":\"/b/\",\"scheme\":\"https\",\"authority\":\"b.example\",\"kid\":\"kb\",\"issuer\":\"cp\",\
    \"secret\":\"AgICAgICAgICAgICAgICAgICAgICAgICAgICAgICAgI\",\"audience\":\"f\"}]}";

pub const OK: &str = "HTTP/1.1 200 OK\r\nContent-Length: 2\r\n\r\nok";

pub const BAD: &str =
    "HTTP/1.1 400 Bad Request\r\nContent-Length: 9\r\nConnection: close\r\n\r\nbad head\n";

pub const METHOD: &str =
    "HTTP/1.1 405 Method Not Allowed\r\nContent-Length: 7\r\nAllow: GET, HEAD\r\n\r\nmethod\n";

pub const EXPIRED: &str = "HTTP/1.1 403 Forbidden\r\nContent-Length: 18\r\n\r\ndenied 13 Expired\n";

pub const SEEN: &str = "HTTP/1.1 403 Forbidden\r\nContent-Length: 15\r\n\r\ndenied 17 Seen\n";

pub const NO_ANSWER: &str = "HTTP/1.1 502 Bad Gateway\r\nContent-Length: 10\r\n\r\nno answer\n";

pub fn joined(alloc: Global, pieces: &[&str]) -> Result<String, Fail> {
    let mut text = String::new(alloc);
    for piece in pieces {
        text.push_str(*piece)?;
    }
    Ok(text)
}

pub fn repeated(alloc: Global, piece: &str, count: usize) -> Result<String, Fail> {
    let mut text = String::new(alloc);
    for _ in 0..count {
        text.push_str(piece)?;
    }
    Ok(text)
}

fn sealed_with(alloc: Global, kid: &str, byte: u8, claims: &str) -> Result<String, Fail> {
    if claims.len() > MAX_PAYLOAD {
        return Err(Fail::new("claims that are too long to seal"));
    }
    let key = Key::new(alloc, kid.as_bytes(), b"cp", &[byte; 32])?;
    let token = seal(alloc, &key, claims.as_bytes())?;
    Ok(String::from_utf8(token.text().to_vec(alloc)?)?)
}

// A token under the edge's own key.
pub fn sealed(alloc: Global, claims: &str) -> Result<String, Fail> {
    sealed_with(alloc, "k1", 1, claims)
}

// A token under the route's key.
pub fn sealed_for_route(alloc: Global, claims: &str) -> Result<String, Fail> {
    sealed_with(alloc, "kb", 2, claims)
}

// The head of a GET of a path, with a token over claims in the query.
pub fn get(alloc: Global, path: &str, claims: &str) -> Result<String, Fail> {
    let token = sealed(alloc, claims)?;
    joined(
        alloc,
        &[
            "GET ",
            path,
            "?URISigningPackage=",
            token.as_str(),
            " HTTP/1.1\r\nHost: h\r\n\r\n",
        ],
    )
}

// The same with the token in a cookie.
pub fn get_by_cookie(alloc: Global, path: &str, token: &str) -> Result<String, Fail> {
    joined(
        alloc,
        &[
            "GET ",
            path,
            " HTTP/1.1\r\nHost: h\r\nCookie: a=b\r\nCookie: c=d; URISigningPackage=",
            token,
            "\r\n\r\n",
        ],
    )
}

// What a connection is served by: the clock's moment, the nonces' room, the most bytes that a read gives, and which
// reads, puts and reads of objects fail.
#[derive(Clone, Copy)]
pub struct Scene<'a> {
    pub moment: u32,
    pub room: u16,
    pub piece: usize,
    pub reads: &'a [u64],
    pub puts: &'a [u64],
    pub finds: &'a [u64],
}

pub const CALM: Scene<'static> = Scene {
    moment: 50,
    room: 4,
    piece: 4096,
    reads: &[],
    puts: &[],
    finds: &[],
};

// How it went.
#[derive(Drop)]
pub struct Ran {
    pub text: Vec<u8>,
    pub end: End,
    pub notes: Vec<Note>,
}

// Objects at the paths that the tests ask for.
fn objects(alloc: Global) -> Result<Vec<MemoryFile>, Fail> {
    let mut objects = Vec::new(alloc);
    for uri in ["http://h/v", "http://h/v/1/s1.ts", "http://h/v/1/s2.ts"] {
        objects.push(MemoryFile {
            name: Octets::of(Vec::from_slice(alloc, uri.as_bytes())?),
            bytes: Octets::of(Vec::from_slice(alloc, b"ok")?),
        })?;
    }
    Ok(objects)
}

pub fn run(alloc: Global, scene: Scene<'_>, bytes: &str) -> Result<Ran, Fail> {
    let mut nonces = NonceTable::with_room(alloc, scene.room.max(1) as u32)?;
    run_over(alloc, scene, bytes, &mut nonces)
}

// The same over nonces that there are already.
pub fn run_over<N: Nonces>(
    alloc: Global,
    scene: Scene<'_>,
    bytes: &str,
    nonces: &mut N,
) -> Result<Ran, Fail>
    requires { MAX_HEADS ≤ N.calls_left nonces.old }
{
    let conf = read_conf(alloc, CONF)?;
    let kit = Kit::new(is_any, equals, is_one_of, is_at_most, is_path_prefix);
    let reads = Vec::from_slice(alloc, scene.reads)?;
    let puts = Vec::from_slice(alloc, scene.puts)?;
    let finds = Vec::from_slice(alloc, scene.finds)?;
    let bytes = Vec::from_slice(alloc, bytes.as_bytes())?;
    let mut wire = ListedWire {
        source: ListedSource::new(bytes, scene.piece.max(1), reads),
        sink: ListedSink::new(alloc, puts),
    };
    let mut clock = SteadyClock::new(scene.moment as u64);
    let mut objects = ListedObjects::new(objects(alloc)?, finds);
    let mut notes = Vec::new(alloc);
    let edge = Edge {
        alloc,
        kit: &kit,
        conf: &conf,
    };
    let end = serve_connection(
        &edge,
        &mut wire,
        nonces,
        &mut clock,
        &mut objects,
        &mut notes,
    );
    Ok(Ran {
        text: Vec::from_slice(alloc, wire.sink.bytes())?,
        end,
        notes,
    })
}
