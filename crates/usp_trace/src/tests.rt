//! Ledgers by hand, and random ones against a plain evaluator.
use crate::{Issue, Ledger, MAX_ISSUES, NoMemory};
use std::alloc::Global;
use std::process::Abort;
use std::test::Fail;
use usp_jws::{Token, split};
use usp_uri::{Uri, read_uri};

mod evaluator;
mod random;
mod samples;

/// The tokens of a lab: what a provider granted, and what asks issued.
const G1: &[u8] = b"e30.e30.AA";

const I1: &[u8] = b"e30.e30.AQ";

const I2: &[u8] = b"e30.e30.Ag";

const I3: &[u8] = b"e30.e30.Aw";

const I4: &[u8] = b"e30.e30.BA";

const I5: &[u8] = b"e30.e30.BQ";

const X1: &[u8] = b"e30.e30.Bg";

/// The use for which a token is issued.
#[derive(Clone, Copy)]
struct Asked<'a> {
    edge: u16,
    uri: &'a [u8],
    moment: u64,
    route: Option<u16>,
}

fn token_of(alloc: Global, text: &[u8]) -> Result<Token, Fail> {
    let parts = split(text)?;
    Ok(Token::of(alloc, &parts)?)
}

fn uri_of(alloc: Global, text: &[u8]) -> Result<Uri, Fail> {
    match read_uri(alloc, text) {
        Ok(uri) => Ok(uri),
        Err(_) => Err(Fail::new("a URI")),
    }
}

/// Appends a grant.
fn grant(
    rt: &impl Abort,
    alloc: Global,
    ledger: &mut Ledger,
    text: &[u8],
) -> Result<Option<u32>, Fail> {
    assert!(rt; ledger.len() < MAX_ISSUES);
    let token = token_of(alloc, text)?;
    Ok(ledger.append(Issue::Grant { token }).ok())
}

/// Appends what was issued for a use of a token. None where that token was not issued.
fn issue(
    rt: &impl Abort,
    alloc: Global,
    ledger: &mut Ledger,
    used: &[u8],
    asked: Asked<'_>,
    text: &[u8],
) -> Result<Option<u32>, Fail> {
    assert!(rt; ledger.len() < MAX_ISSUES);
    let token = token_of(alloc, text)?;
    let uri = uri_of(alloc, asked.uri)?;
    let edge = asked.edge;
    let moment = asked.moment;
    let Some(parent) = ledger.first_place(used) else {
        return Ok(None);
    };
    let issue = match asked.route {
        None => Issue::Renewed {
            parent,
            edge,
            uri,
            moment,
            token,
        },
        Some(route) => Issue::Resigned {
            parent,
            edge,
            uri,
            moment,
            route,
            token,
        },
    };
    Ok(ledger.append(issue).ok())
}

/// The chain of a token's first place.
fn chain_of(alloc: Global, ledger: &Ledger, token: &[u8]) -> Result<Option<Vec<u32>>, NoMemory> {
    match ledger.first_place(token) {
        Some(place) if place < ledger.len() => Ok(Some(ledger.chain(alloc, place)?)),
        _ => Ok(None),
    }
}

/// A use for which the edge renews.
fn renewing(edge: u16, uri: &[u8], moment: u64) -> Asked<'_> {
    Asked {
        edge,
        uri,
        moment,
        route: None,
    }
}

#[test]
fn the_chains_of_a_lab(rt: HostRuntime) -> Result<(), Fail> {
    let alloc = rt.alloc();
    let mut ledger = Ledger::empty(alloc);
    assert_eq!(rt; ledger.len(), 0);
    assert_eq!(rt; grant(&rt, alloc, &mut ledger, G1)?, Some(0));
    let sent = Asked {
        edge: 0,
        uri: b"https://a.example/b/s3.ts",
        moment: 1025,
        route: Some(0),
    };
    let rows = [
        (
            G1,
            renewing(0, b"https://a.example/v/1/list.m3u8", 1000),
            I1,
        ),
        (I1, renewing(0, b"https://a.example/v/1/s1.ts", 1010), I2),
        (I2, renewing(0, b"https://a.example/v/1/s2.ts", 1020), I3),
        (I2, sent, I4),
        (I4, renewing(1, b"https://b.example/b/s3.ts", 1030), I5),
    ];
    let mut place = 0u32;
    for (used, asked, token) in rows {
        place = place.saturating_add(1);
        assert_eq!(rt;
            issue(&rt, alloc, &mut ledger, used, asked, token)?,
            Some(place)
        );
    }
    let late = renewing(0, b"https://a.example/v/1/s1.ts", 1040);
    assert_eq!(rt; issue(&rt, alloc, &mut ledger, X1, late, I1)?, None);
    assert_eq!(rt; ledger.len(), 6);
    let chains: [(&[u8], Option<&[u32]>); 7] = [
        (G1, Some(&[0])),
        (I1, Some(&[0, 1])),
        (I2, Some(&[0, 1, 2])),
        (I3, Some(&[0, 1, 2, 3])),
        (I4, Some(&[0, 1, 2, 4])),
        (I5, Some(&[0, 1, 2, 4, 5])),
        (X1, None),
    ];
    for (token, expected) in chains {
        let chain = chain_of(alloc, &ledger, token)?;
        assert_eq!(rt; chain.as_ref().map(|places| places.as_slice()), expected);
    }
    Ok(())
}

// A token that was issued twice has its first place, and that place's chain.
#[test]
fn a_token_that_stands_twice(rt: HostRuntime) -> Result<(), Fail> {
    let alloc = rt.alloc();
    let mut ledger = Ledger::empty(alloc);
    let asked = renewing(0, b"http://h/v", 5);
    assert_eq!(rt; grant(&rt, alloc, &mut ledger, G1)?, Some(0));
    assert_eq!(rt; grant(&rt, alloc, &mut ledger, G1)?, Some(1));
    assert_eq!(rt; issue(&rt, alloc, &mut ledger, G1, asked, I1)?, Some(2));
    assert_eq!(rt; grant(&rt, alloc, &mut ledger, I1)?, Some(3));
    assert_eq!(rt; issue(&rt, alloc, &mut ledger, I1, asked, I2)?, Some(4));
    assert_eq!(rt; issue(&rt, alloc, &mut ledger, I2, asked, G1)?, Some(5));
    let rows: [(&[u8], Option<u32>); 4] = [(G1, Some(0)), (I1, Some(2)), (I2, Some(4)), (I3, None)];
    for (token, expected) in rows {
        assert_eq!(rt; ledger.first_place(token), expected);
    }
    assert_eq!(rt; ledger.len(), 6);
    assert!(rt; ledger.len() > 5);
    let chains: [(u32, &[u32]); 6] = [
        (0, &[0]),
        (1, &[1]),
        (2, &[0, 2]),
        (3, &[3]),
        (4, &[0, 2, 4]),
        (5, &[0, 2, 4, 5]),
    ];
    for (place, expected) in chains {
        if place < ledger.len() {
            let places = ledger.chain(alloc, place)?;
            assert_eq!(rt; places.as_slice(), expected);
        }
    }
    assert_eq!(rt; NoMemory.to_string(alloc)?.as_str(), "memory ran out");
    Ok(())
}
