//! What was answered to a player.
ghost use Rattle.std.specs.Prelude.{◌≡◌};

use std::marker::Model;
use usp_base::Octets;

/// A request that was answered.
#[derive(Drop, Debug)]
pub struct Step {
    /// Whom it asked: a host, with `:` and a port where that is not the scheme's own.
    pub authority: Octets,
    /// What it asked for, without the query.
    pub path: Octets,
    /// The status code (RFC 9110, section 15).
    pub status: u16,
}

/// The requests that were answered, in order, which contracts see as their list.
#[derive(Drop)]
pub struct Transcript {
    steps: Vec<Step>,
}

impl Model for Transcript {
    ghost use Rattle.std.specs.Prelude.{List};
    ghost use Rattle.usp_player.specs.declared.transcript.Step.{Step};

    ghost Value = { List Step };

    ghost view = { λ t. t.steps.items };
}

impl Transcript {
    pub(crate) fn of(steps: Vec<Step>) -> Transcript
        ensures { result ≡ steps.items }
    {
        Transcript { steps }
    }

    pub fn steps(&self) -> &[Step]
        ensures { result.now ≡ self.now }
    {
        &self.steps
    }
}
