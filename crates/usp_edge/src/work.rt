//! The work on one head.
ghost use Rattle.std.specs.Prelude.{◌≡◌, ◌≤◌};
ghost use Rattle.usp_edge.specs.Requests.{ComesOfHead, ComesOfRequest};

use crate::answer::{answer_passed, deny};
use crate::asks::asked_uri;
use crate::judgement::{Judgement, judge_request};
use crate::memory::NoMemory;
use crate::note::{Subject, make_room};
use crate::noting::note_answer;
use crate::replies::{body_text, method_text};
use crate::request::Request;
use crate::{Nonces, Note};
use usp_base::{Clock, Objects, Octets};
use usp_http::Method;

// Works a request. The room for its note is made before the clock is read: behind a nonce call the note needs no
// memory.
fn work_request<N: Nonces, C: Clock, O: Objects>(
    request: &Request<'_>,
    nonces: &mut N,
    clock: &mut C,
    objects: &mut O,
    journal: &mut Vec<Note>,
) -> Result<Octets, NoMemory>
    requires { 1 ≤ N.calls_left nonces.old }
    ensures { ComesOfRequest N.gains request.now.conf.now request.now.last request.now.head.now (record {
      given = C.given clock.old;
      supplies = record {
        nonces = nonces.old;
        objects = O.objects objects.old;
        faults = O.object_count objects.old;
      };
      journal = journal.old.items;
    }) (record {
      given = C.given clock.new;
      supplies = record {
        nonces = nonces.new;
        objects = O.objects objects.new;
        faults = O.object_count objects.new;
      };
      journal = journal.new.items;
    }) result }
{
    let uri = match asked_uri(request) {
        Ok(uri) => uri,
        Err(_) => return Err(NoMemory),
    };
    match make_room(journal) {
        Ok(()) => {}
        Err(_) => return Err(NoMemory),
    }
    let moment = clock.now();
    let judgement = match judge_request(request, uri.bytes(), moment) {
        Ok(judgement) => judgement,
        Err(_) => return Err(NoMemory),
    };
    let Judgement { token, passed } = judgement;
    let subject = Subject { uri, token, moment };
    match passed {
        Ok(passed) => {
            let answer = answer_passed(request, &passed, nonces, objects);
            note_answer(journal, subject, answer)
        }
        Err(rule) => note_answer(journal, subject, deny(request, rule)),
    }
}

/// Works a head: the bytes of its reply.
pub(crate) fn work_on<N: Nonces, C: Clock, O: Objects>(
    request: &Request<'_>,
    nonces: &mut N,
    clock: &mut C,
    objects: &mut O,
    journal: &mut Vec<Note>,
) -> Result<Octets, NoMemory>
    requires { 1 ≤ N.calls_left nonces.old }
    ensures { ComesOfHead N.gains request.now.conf.now request.now.last request.now.head.now (record {
      given = C.given clock.old;
      supplies = record {
        nonces = nonces.old;
        objects = O.objects objects.old;
        faults = O.object_count objects.old;
      };
      journal = journal.old.items;
    }) (record {
      given = C.given clock.new;
      supplies = record {
        nonces = nonces.new;
        objects = O.objects objects.new;
        faults = O.object_count objects.new;
      };
      journal = journal.new.items;
    }) result }
{
    if request.head.body {
        return body_text(request);
    }
    match request.head.method {
        Method::Other => method_text(request),
        _ => work_request(request, nonces, clock, objects, journal),
    }
}
