//! Generated scripts: how many edges, objects and rounds they have, and single asks of the table.
use crate::{Carried, LabAsk, Label, Round, Script, generated};
use std::test::Fail;

// The numbers of edges, of objects, of rounds, of asks and of grants.
fn counts(script: &Script) -> [usize; 5] {
    let mut asks: usize = 0;
    let mut grants: usize = 0;
    for round in script.rounds() {
        asks = asks.saturating_add(round.asks.rows().len());
        grants = grants.saturating_add(round.grants.rows().len());
    }
    let edges = script.edges().len();
    let objects = script.objects().len();
    [edges, objects, script.rounds().len(), asks, grants]
}

#[test]
fn makes_ten_rounds_a_group(rt: HostRuntime) -> Result<(), Fail> {
    let alloc = rt.alloc();
    let script = generated(alloc, 1)?;
    assert!(rt; counts(&script) == [2, 8, 10, 10, 1]);
    let [a, b] = script.edges() else {
        return Err(Fail::new("another number of edges"));
    };
    assert_eq!(rt; a.edge().text(), "a");
    assert_eq!(rt; b.edge().text(), "b");
    let script = generated(alloc, 10)?;
    assert!(rt; counts(&script) == [2, 8, 100, 100, 10]);
    let script = generated(alloc, 1000)?;
    assert!(rt; counts(&script) == [2, 8, 10_000, 10_000, 1000]);
    Ok(())
}

#[test]
fn makes_the_most_groups(rt: HostRuntime) -> Result<(), Fail> {
    let script = generated(rt.alloc(), 10_000)?;
    assert!(rt; counts(&script) == [2, 8, 100_000, 100_000, 10_000]);
    Ok(())
}

// The one ask of a round.
fn ask_of(rounds: &[Round], place: usize) -> Result<&LabAsk, Fail> {
    let Some(round) = rounds.get(place) else {
        return Err(Fail::new("no such round"));
    };
    match round.asks.rows() {
        [ask] => Ok(ask),
        _ => Err(Fail::new("another number of asks")),
    }
}

#[test]
fn asks_as_the_table_says(rt: HostRuntime) -> Result<(), Fail> {
    let script = generated(rt.alloc(), 2)?;
    let rows: [(usize, u32, u64, &[u8], Carried); 7] = [
        (
            0,
            0,
            1000,
            b"https://a.example/v/list.m3u8",
            Carried::InQuery(Label::Granted(1)),
        ),
        (
            10,
            0,
            1100,
            b"https://a.example/v/list.m3u8",
            Carried::InQuery(Label::Granted(2)),
        ),
        (
            12,
            0,
            1110,
            b"https://a.example/v/s2.ts",
            Carried::InCookie(Label::Issued(12)),
        ),
        (
            16,
            0,
            1130,
            b"https://a.example/b/s6.ts",
            Carried::InCookie(Label::Issued(16)),
        ),
        (
            17,
            1,
            1135,
            b"https://b.example/b/s6.ts",
            Carried::InQuery(Label::Issued(17)),
        ),
        (
            18,
            1,
            1136,
            b"https://b.example/b/s6.ts",
            Carried::InQuery(Label::Issued(17)),
        ),
        (
            19,
            0,
            1140,
            b"https://a.example/v/list.m3u8",
            Carried::Nothing,
        ),
    ];
    for (place, edge, moment, uri, carried) in rows {
        let ask = ask_of(script.rounds(), place)?;
        assert_eq!(rt; ask.edge, edge);
        assert_eq!(rt; ask.moment, moment);
        assert!(rt; ask.uri.text() == uri);
        assert!(rt; ask.carried == carried);
    }
    Ok(())
}
