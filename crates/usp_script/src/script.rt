//! A script of the lab.
ghost use Rattle.std.specs.Prelude.{◌≡◌};
ghost use Rattle.usp_script.specs.Script.{IsScript, script};

use crate::{LabObject, Round};
use std::marker::Model;
use usp_base::Rows;
use usp_conf::Conf;
use usp_jws::Token;

/// What a lab runs: edges with their objects, and rounds of requests to them.
#[derive(Drop)]
pub struct Script {
    edges: Rows<Conf>,
    objects: Rows<LabObject>,
    outsides: Rows<Token>,
    rounds: Rows<Round>,
}

impl Model for Script {
    ghost use Rattle.std.specs.Coded.{codes};
    ghost use Rattle.usp_json.specs.contracts.value.Json as e;
    ghost use Rattle.usp_script.specs.Script.{IsScript, ScriptValue, script};

    ghost Value = { ScriptValue };

    ghost coded = { Prim.hlevel (codes, e.the_row.coded) };

    ghost view = { λ s. script s.edges s.objects s.outsides s.rounds };

    ghost invariant = { λ s. IsScript (script s.edges s.objects s.outsides s.rounds) };
}

impl Script {
    pub(crate) fn new(
        edges: Rows<Conf>,
        objects: Rows<LabObject>,
        outsides: Rows<Token>,
        rounds: Rows<Round>,
    ) -> Script
        requires { IsScript (script edges objects outsides rounds) }
        ensures { result ≡ script edges objects outsides rounds }
    {
        Script {
            edges,
            objects,
            outsides,
            rounds,
        }
    }

    pub fn edges(&self) -> &[Conf]
        ensures edges { result.now ≡ self.now.edges }
        ensures script { IsScript self.now }
    {
        self.edges.rows()
    }

    /// Of several of one edge and one URI the first counts.
    pub fn objects(&self) -> &[LabObject]
        ensures { result.now ≡ self.now.objects }
    {
        self.objects.rows()
    }

    /// The tokens that were sealed and are not granted.
    pub fn outsides(&self) -> &[Token]
        ensures { result.now ≡ self.now.outsides }
    {
        self.outsides.rows()
    }

    pub fn rounds(&self) -> &[Round]
        ensures { result.now ≡ self.now.rounds }
    {
        self.rounds.rows()
    }
}
