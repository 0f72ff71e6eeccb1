//! A thousand random ledgers: an edge admits a use of an issued token exactly where the plain evaluator says that it
//! met its grant, and the token's own container has the content.
ghost use Rattle.std.specs.Prelude.{◌<◌};

use super::evaluator::{Entry, How, Use, is_grant_met};
use super::samples::{
    Content, EDGES, Held, Sheet, is_admitted, profiles, signers, token_of, uri_text,
};
use crate::{Issue, Ledger, MAX_ISSUES};
use std::alloc::Global;
use std::test::Fail;
use usp_jws::Key;
use usp_rules::Profile;
use usp_uri::{Uri, read_uri};

/// A linear congruential generator.
#[derive(Drop)]
struct Random {
    state: u64,
}

impl Random {
    fn below(&mut self, bound: u32) -> u32
        requires { 0 < bound }
        ensures { result < bound }
    {
        let product = self.state.wrapping_mul(6_364_136_223_846_793_005);
        self.state = product.wrapping_add(1_442_695_040_888_963_407);
        (self.state / 8_589_934_592) as u32 % bound
    }

    fn small(&mut self, bound: u8) -> u8
        requires { 0 < bound }
    {
        self.below(bound as u32) as u8
    }

    /// A number from `from` on, or none.
    fn number(&mut self, from: u32, width: u32) -> Option<u32>
        requires { 0 < width }
    {
        if self.below(3) == 0 {
            return None;
        }
        Some(self.below(width).saturating_add(from))
    }

    fn content(&mut self) -> Content {
        Content {
            host: self.small(EDGES),
            path: self.small(2),
        }
    }

    fn held(&mut self) -> Held {
        match self.below(4) {
            0 => Held::All,
            1 => Held::Host(self.small(EDGES)),
            2 => Held::Path(self.small(2)),
            _ => Held::Only(self.content()),
        }
    }

    fn audience(&mut self) -> Option<u8> {
        if self.below(3) == 0 {
            return None;
        }
        Some(self.small(EDGES))
    }

    fn sheet(&mut self) -> Sheet {
        Sheet {
            audience: self.audience(),
            begins: self.number(90, 15),
            ends: self.number(115, 40),
            period: self.number(10, 30),
            held: self.held(),
        }
    }

    fn asked(&mut self) -> Use {
        Use {
            edge: self.small(EDGES),
            content: self.content(),
            moment: self.below(40).saturating_add(98),
        }
    }
}

/// How many uses there were of each kind.
#[derive(Clone, Copy)]
struct Tally {
    admitted: u32,
    denied: u32,
    // Admitted behind at least two links.
    deep: u32,
    // Denied by the token's own container alone: the use met its grant.
    narrowed: u32,
}

/// The keys, what each edge judges by, and a ledger with what the test knows of each of its places.
#[derive(Drop)]
struct Lab {
    keys: Vec<Key>,
    profiles: Vec<Profile>,
    ledger: Ledger,
    entries: Vec<Entry>,
    random: Random,
    tally: Tally,
}

/// An admitted use of the token at a place, and the claims of that token.
#[derive(Clone, Copy)]
struct Pass {
    place: u32,
    asked: Use,
    sheet: Sheet,
}

/// The claims for one more period.
fn renewed(sheet: Sheet, moment: u32, period: u32) -> Sheet {
    Sheet {
        audience: sheet.audience,
        begins: sheet.begins,
        ends: Some(moment.saturating_add(period)),
        period: sheet.period,
        held: sheet.held,
    }
}

/// The claims signed again for an edge.
fn sent_to(sheet: Sheet, edge: u8, content: Content) -> Sheet {
    let target = Content {
        host: edge,
        path: content.path,
    };
    let held = match sheet.held {
        Held::Only(_) => Held::Only(target),
        held if held.has(target) => held,
        _ => Held::Only(target),
    };
    let audience = match sheet.audience {
        None => None,
        Some(_) => Some(edge),
    };
    Sheet {
        audience,
        begins: sheet.begins,
        ends: sheet.ends,
        period: sheet.period,
        held,
    }
}

/// What an admitted use issues.
fn entry_of(random: &mut Random, asked: Use, sheet: Sheet) -> Entry {
    let renews = random.below(2) == 0;
    if let Some(period) = sheet.period {
        if renews {
            return Entry {
                how: How::Renewed(asked),
                sheet: renewed(sheet, asked.moment, period),
            };
        }
    }
    let edge = random.small(EDGES);
    Entry {
        how: How::SentTo(edge, asked),
        sheet: sent_to(sheet, edge, asked.content),
    }
}

fn tally_with(tally: Tally, admitted: bool, met: bool, places: usize) -> Tally {
    let mut tally = tally;
    if admitted {
        tally.admitted = tally.admitted.saturating_add(1);
        if places > 2 {
            tally.deep = tally.deep.saturating_add(1);
        }
    } else {
        tally.denied = tally.denied.saturating_add(1);
        if met {
            tally.narrowed = tally.narrowed.saturating_add(1);
        }
    }
    tally
}

fn content_uri(alloc: Global, content: Content) -> Result<Uri, Fail> {
    let text = uri_text(alloc, content)?;
    match read_uri(alloc, text.as_bytes()) {
        Ok(uri) => Ok(uri),
        Err(_) => Err(Fail::new("a URI")),
    }
}

impl Lab {
    fn begin(&mut self, alloc: Global) {
        self.ledger = Ledger::empty(alloc);
        self.entries.clear();
    }

    fn grant(&mut self, alloc: Global) -> Result<(), Fail> {
        let sheet = self.random.sheet();
        let token = token_of(alloc, &self.keys, EDGES, &sheet)?;
        if self.ledger.len() >= MAX_ISSUES {
            return Err(Fail::new("room in the ledger"));
        }
        if self.ledger.append(Issue::Grant { token }).is_err() {
            return Err(Fail::new("memory"));
        }
        self.entries.push(Entry {
            how: How::Granted,
            sheet,
        })?;
        Ok(())
    }

    /// Judges a random use of a random token, and compares. Gives the use where it is admitted.
    fn judge_one(&mut self, alloc: Global) -> Result<Option<Pass>, Fail> {
        let count = self.ledger.len();
        if count == 0 {
            return Ok(None);
        }
        let mut at = self.random.below(count);
        if self.random.below(2) == 0 {
            at = count - 1;
        }
        let asked = self.random.asked();
        let token = self.ledger.issue(at).token().text();
        let Some(place) = self.ledger.first_place(token) else {
            return Err(Fail::new("the place of a token"));
        };
        if place >= count {
            return Err(Fail::new("a place below the length"));
        }
        let places = self.ledger.chain(alloc, place)?;
        let Some(profile) = self.profiles.get(asked.edge as usize) else {
            return Err(Fail::new("an edge"));
        };
        let Some(entry) = self.entries.get(place as usize).copied() else {
            return Err(Fail::new("what a place holds"));
        };
        let Some(met) = is_grant_met(&self.entries, &places, asked) else {
            return Err(Fail::new("a chain that begins with its grant"));
        };
        let admitted = is_admitted(alloc, profile, token, asked.content, asked.moment)?;
        if admitted != (met && entry.sheet.held.has(asked.content)) {
            return Err(Fail::new("a verdict as the grant has it"));
        }
        self.tally = tally_with(self.tally, admitted, met, places.len());
        if !admitted {
            return Ok(None);
        }
        Ok(Some(Pass {
            place,
            asked,
            sheet: entry.sheet,
        }))
    }

    /// Appends what an admitted use issues.
    fn issue(&mut self, alloc: Global, pass: Pass) -> Result<(), Fail> {
        let asked = pass.asked;
        let entry = entry_of(&mut self.random, asked, pass.sheet);
        let token = token_of(alloc, &self.keys, asked.edge, &entry.sheet)?;
        let uri = content_uri(alloc, asked.content)?;
        if pass.place >= self.ledger.len() || self.ledger.len() >= MAX_ISSUES {
            return Err(Fail::new("a place of the ledger, and room"));
        }
        let used = self.ledger.issue(pass.place).token().text();
        let Some(parent) = self.ledger.first_place(used) else {
            return Err(Fail::new("the place of a token"));
        };
        let edge = asked.edge as u16;
        let moment = asked.moment as u64;
        let issue = match entry.how {
            How::SentTo(route, _) => Issue::Resigned {
                parent,
                edge,
                uri,
                moment,
                route: route as u16,
                token,
            },
            _ => Issue::Renewed {
                parent,
                edge,
                uri,
                moment,
                token,
            },
        };
        if self.ledger.append(issue).is_err() {
            return Err(Fail::new("memory"));
        }
        self.entries.push(entry)?;
        Ok(())
    }

    fn step(&mut self, alloc: Global) -> Result<(), Fail> {
        if self.ledger.len() == 0 || self.random.below(5) == 0 {
            return self.grant(alloc);
        }
        match self.judge_one(alloc)? {
            Some(pass) => self.issue(alloc, pass),
            None => Ok(()),
        }
    }
}

#[test]
fn what_is_admitted_met_its_grant(rt: HostRuntime) -> Result<(), Fail> {
    let alloc = rt.alloc();
    let mut lab = Lab {
        keys: signers(alloc)?,
        profiles: profiles(alloc)?,
        ledger: Ledger::empty(alloc),
        entries: Vec::new(alloc),
        random: Random { state: 1 },
        tally: Tally {
            admitted: 0,
            denied: 0,
            deep: 0,
            narrowed: 0,
        },
    };
    for _ in 0..1000 {
        lab.begin(alloc);
        for _ in 0..8 {
            lab.step(alloc)?;
        }
    }
    assert!(rt; lab.tally.admitted > 1000);
    assert!(rt; lab.tally.denied > 1000);
    assert!(rt; lab.tally.deep > 100);
    assert!(rt; lab.tally.narrowed > 100);
    Ok(())
}
