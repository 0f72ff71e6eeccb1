//! Noting what a request was answered.
ghost use Rattle.std.specs.Prelude.{◌≡◌, ◌<◌, ◌++◌, ◌∷◌, [], Some, vec_len};
ghost use Rattle.std.specs.Vec.{vec_capacity};
ghost use Rattle.usp_edge.specs.Requests.{note_with, note_without, notes_by, text_by};

use crate::answer::{Answer, Replied};
use crate::memory::NoMemory;
use crate::note::Subject;
use crate::{Note, Verdict};
use usp_base::Octets;
use usp_nonce::Turned;

// Notes a request that was replied to.
fn note_reply(
    journal: &mut Vec<Note>,
    subject: Subject,
    verdict: Verdict,
    call: Option<Turned>,
    replied: Replied,
) -> Octets
    requires { vec_len journal.old < vec_capacity journal.old }
    ensures text { result ≡ replied.text }
    ensures noted { journal.new.items ≡ journal.old.items ++ note_with subject verdict call replied ∷ [] }
{
    let Subject { uri, token, moment } = subject;
    let Replied {
        status,
        text,
        route,
        issued,
    } = replied;
    let note = Note {
        uri,
        token,
        moment,
        verdict,
        call,
        route,
        issued,
        status,
    };
    journal.push(note).unwrap();
    text
}

// Notes a request whose nonce call was made, and to which there is no reply.
fn note_call(journal: &mut Vec<Note>, subject: Subject, verdict: Verdict, turned: Turned)
    requires { vec_len journal.old < vec_capacity journal.old }
    ensures { journal.new.items ≡ journal.old.items ++ note_without subject verdict (Some turned) ∷ [] }
{
    let Subject { uri, token, moment } = subject;
    let note = Note {
        uri,
        token,
        moment,
        verdict,
        call: Some(turned),
        route: None,
        issued: None,
        status: 0,
    };
    journal.push(note).unwrap();
}

/// Notes what a request was answered: always where there is a reply, and else where its nonce call was made. There is
/// room for the note.
pub(crate) fn note_answer(
    journal: &mut Vec<Note>,
    subject: Subject,
    answer: Answer,
) -> Result<Octets, NoMemory>
    requires { vec_len journal.old < vec_capacity journal.old }
    ensures text { result ≡ text_by answer.reply }
    ensures noted { journal.new.items
        ≡ journal.old.items ++ notes_by subject answer.verdict answer.call answer.reply }
{
    let Answer {
        verdict,
        call,
        reply,
    } = answer;
    match reply {
        Ok(replied) => Ok(note_reply(journal, subject, verdict, call, replied)),
        Err(want) => match call {
            None => Err(want),
            Some(turned) => {
                note_call(journal, subject, verdict, turned);
                Err(want)
            }
        },
    }
}
