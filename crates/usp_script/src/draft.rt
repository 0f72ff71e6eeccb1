//! A script that is still being read.
use crate::known::know_conf;
use crate::memory::NoMemory;
use crate::{LabAsk, LabObject, MAX_ASKS, MAX_EDGES, Round, Script};
use std::alloc::Global;
use std::marker::Model;
use usp_base::Rows;
use usp_conf::Conf;
use usp_jws::{Key, Token};

/// What the lines so far say. The last round is open: its grants and its asks stand apart.
#[derive(Drop)]
pub struct Draft {
    edges: Vec<Conf>,
    objects: Vec<LabObject>,
    keys: Vec<Key>,
    outsides: Vec<Token>,
    rounds: Vec<Round>,
    grants: Vec<Token>,
    asks: Vec<LabAsk>,
    has_begun: bool,
    // How many tokens are granted in all rounds, and how many asks the rounds that are over have.
    granted: u32,
    issued: u32,
}

impl Model for Draft {
    ghost use Rattle.std.specs.Coded.{codes};
    ghost use Rattle.usp_json.specs.contracts.value.Json as e;
    ghost use Rattle.usp_script.specs.Drafts.{Draft, draft_of};
    ghost use Rattle.usp_script.specs.Kept.{IsDraft};

    ghost Value = { Draft };

    ghost coded = { Prim.hlevel (codes, e.the_row.coded) };

    ghost view = { λ d. draft_of d.edges.items d.objects.items d.keys.items d.outsides.items
        d.rounds.items (record { grants = d.grants.items; asks = d.asks.items }) d.has_begun };

    ghost invariant = { λ d. IsDraft (draft_of d.edges.items d.objects.items d.keys.items
        d.outsides.items d.rounds.items (record { grants = d.grants.items; asks = d.asks.items })
        d.has_begun) d.granted d.issued };
}

impl Draft {
    ghost use Rattle.std.specs.Prelude.{◌≡◌, ◌<◌, ◌≤◌, length, IfOk};
    ghost use Rattle.usp_issue.specs.declared.limits.TheConstants.{MAX_TOKEN};
    ghost use Rattle.usp_script.specs.Drafts.{nothing_read, rounds_of, script_of, with_ask, with_edge, with_grant, with_key, with_object, with_outside, with_round};
    ghost use Rattle.usp_script.specs.Script.{IsAsk, asks_in, grants_in};
    ghost use Rattle.usp_script.specs.declared.limits.TheConstants.{MAX_ASKS, MAX_EDGES};

    /// What stands before the first line.
    pub fn new(alloc: Global) -> Draft
        ensures { result ≡ nothing_read }
    {
        Draft {
            edges: Vec::new(alloc),
            objects: Vec::new(alloc),
            keys: Vec::new(alloc),
            outsides: Vec::new(alloc),
            rounds: Vec::new(alloc),
            grants: Vec::new(alloc),
            asks: Vec::new(alloc),
            has_begun: false,
            granted: 0,
            issued: 0,
        }
    }

    /// Whether a line stands above that is none of an edge, an object or a key.
    pub fn has_begun(&self) -> bool
        ensures { result ≡ self.now.has_begun }
    {
        self.has_begun
    }

    pub fn edges(&self) -> &[Conf]
        ensures edges { result.now ≡ self.now.edges }
        ensures few { length self.now.edges ≤ MAX_EDGES }
    {
        &self.edges
    }

    pub fn objects(&self) -> &[LabObject]
        ensures { result.now ≡ self.now.objects }
    {
        &self.objects
    }

    pub fn keys(&self) -> &[Key]
        ensures { result.now ≡ self.now.keys }
    {
        &self.keys
    }

    /// How many tokens are granted.
    pub fn granted(&self) -> u32
        ensures { result ≡ length (grants_in (rounds_of self.now)) }
    {
        self.granted
    }

    /// How many tokens are sealed and not granted.
    pub fn outside(&self) -> u32
        ensures { result ≡ length self.now.outsides }
    {
        self.outsides.len() as u32
    }

    /// How many asks the rounds that are over have.
    pub fn issued(&self) -> u32
        ensures { result ≡ asks_in self.now.rounds }
    {
        self.issued
    }

    /// How many asks there are.
    pub fn asked(&self) -> usize
        ensures asks { result ≡ asks_in (rounds_of self.now) }
        ensures few { result ≤ MAX_ASKS }
    {
        self.issued as usize + self.asks.len()
    }

    pub fn with_edge(mut self, edge: Conf) -> Result<Draft, NoMemory>
        requires { length self.edges < MAX_EDGES }
        ensures { IfOk result (λ next. next ≡ with_edge self edge) }
    {
        know_conf(&edge);
        self.edges.push(edge)?;
        Ok(self)
    }

    pub fn with_object(mut self, object: LabObject) -> Result<Draft, NoMemory>
        ensures { IfOk result (λ next. next ≡ with_object self object) }
    {
        self.objects.push(object)?;
        Ok(self)
    }

    pub fn with_key(mut self, key: Key) -> Result<Draft, NoMemory>
        ensures { IfOk result (λ next. next ≡ with_key self key) }
    {
        self.keys.push(key)?;
        Ok(self)
    }

    /// More grants than a label can number count as want of memory.
    pub fn with_grant(mut self, token: Token) -> Result<Draft, NoMemory>
        requires { length token ≤ MAX_TOKEN }
        ensures { IfOk result (λ next. next ≡ with_grant self token) }
    {
        if self.granted == u32::MAX {
            return Err(NoMemory);
        }
        self.grants.push(token)?;
        self.granted += 1;
        self.has_begun = true;
        Ok(self)
    }

    /// More tokens than a label can number count as want of memory.
    pub fn with_outside(mut self, token: Token) -> Result<Draft, NoMemory>
        requires { length token ≤ MAX_TOKEN }
        ensures { IfOk result (λ next. next ≡ with_outside self token) }
    {
        if self.outsides.len() >= u32::MAX as usize {
            return Err(NoMemory);
        }
        self.outsides.push(token)?;
        self.has_begun = true;
        Ok(self)
    }

    pub fn with_ask(mut self, ask: LabAsk) -> Result<Draft, NoMemory>
        requires ask { IsAsk self.edges ask }
        requires few { asks_in (rounds_of self) < MAX_ASKS }
        ensures { IfOk result (λ next. next ≡ with_ask self ask) }
    {
        self.asks.push(ask)?;
        self.has_begun = true;
        Ok(self)
    }

    /// Ends the open round.
    pub fn with_round(self, alloc: Global) -> Result<Draft, NoMemory>
        ensures { IfOk result (λ next. next ≡ with_round self) }
    {
        let issued = self.asked() as u32;
        let Draft {
            edges,
            objects,
            keys,
            outsides,
            mut rounds,
            grants,
            asks,
            has_begun: _,
            granted,
            issued: _,
        } = self;
        rounds.push(Round {
            grants: Rows::of(grants),
            asks: Rows::of(asks),
        })?;
        Ok(Draft {
            edges,
            objects,
            keys,
            outsides,
            rounds,
            grants: Vec::new(alloc),
            asks: Vec::new(alloc),
            has_begun: true,
            granted,
            issued,
        })
    }

    /// The script that ends here.
    pub fn into_script(self) -> Result<Script, NoMemory>
        ensures { IfOk result (λ script. script ≡ script_of self) }
    {
        let Draft {
            edges,
            objects,
            keys: _,
            outsides,
            mut rounds,
            grants,
            asks,
            has_begun: _,
            granted: _,
            issued: _,
        } = self;
        rounds.push(Round {
            grants: Rows::of(grants),
            asks: Rows::of(asks),
        })?;
        Ok(Script::new(
            Rows::of(edges),
            Rows::of(objects),
            Rows::of(outsides),
            Rows::of(rounds),
        ))
    }
}
