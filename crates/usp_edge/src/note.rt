//! What is noted of a request.
ghost use Rattle.std.specs.Prelude.{◌≡◌, ◌<◌, OnOk, vec_len};
ghost use Rattle.std.specs.Vec.{vec_capacity};

use crate::memory::NoMemory;
use usp_base::Octets;
use usp_jws::Token;
use usp_nonce::Turned;
use usp_rules::Rule;

/// The verdict on a request.
#[derive(Clone, Copy, Debug, PartialEq, Eq)]
pub enum Verdict {
    /// The first rule that fails.
    Denied(Rule),
    Admitted,
}

/// What is noted of a request.
#[derive(Drop)]
pub struct Note {
    /// The URI with its package.
    pub uri: Octets,
    /// The token that the request brings.
    pub token: Option<Octets>,
    /// In seconds since 1970.
    pub moment: u64,
    pub verdict: Verdict,
    /// What the nonce call answered, where there was one.
    pub call: Option<Turned>,
    /// The place of the route by which the request was sent on.
    pub route: Option<u16>,
    /// The token that was renewed, or signed again.
    pub issued: Option<Token>,
    /// The status of the reply, and 0 where there was no memory for one.
    pub status: u16,
}

/// What a note begins with.
#[derive(Drop)]
pub(crate) struct Subject {
    pub uri: Octets,
    pub token: Option<Octets>,
    pub moment: u64,
}

/// Makes room for one note.
pub(crate) fn make_room(journal: &mut Vec<Note>) -> Result<(), NoMemory>
    ensures room { OnOk result (vec_len journal.new < vec_capacity journal.new) }
    ensures same { journal.new.items ≡ journal.old.items }
{
    journal.reserve(1)?;
    Ok(())
}
