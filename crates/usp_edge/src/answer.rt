//! What a request is answered, with what was asked outside for that.
ghost use Rattle.std.specs.Prelude.{◌≡◌, ◌≤◌, ◌<◌, [], None, Err, IfOk};
ghost use Rattle.usp_base.specs.declared.limits.TheConstants.{MOMENT_BOUND};
ghost use Rattle.usp_rules.specs.Asks.{AskValue};
ghost use Rattle.usp_edge.specs.Outcomes.{denied};
ghost use Rattle.usp_edge.specs.Requests.{AnswersRequest, IsPassed, IsShort, Says};
ghost use Rattle.usp_edge.specs.declared.memory.NoMemory.{NoMemory as WantOfMemory};
ghost use Rattle.usp_edge.specs.declared.note.Verdict.TheVariants.{Denied};

use crate::calling::{take_nonce, verdict_by};
use crate::judgement::Passed;
use crate::memory::NoMemory;
use crate::objects::serve;
use crate::prepared::prepare;
use crate::replies::denial;
use crate::request::Request;
use crate::{Nonces, Verdict};
use usp_base::{Objects, Octets};
use usp_jws::Token;
use usp_nonce::Turned;
use usp_rules::Rule;

/// A reply, with what is noted of it.
#[derive(Drop)]
pub(crate) struct Replied {
    pub status: u16,
    pub text: Octets,
    pub route: Option<u16>,
    pub issued: Option<Token>,
}

/// What a request is answered.
#[derive(Drop)]
pub(crate) struct Answer {
    pub verdict: Verdict,
    pub call: Option<Turned>,
    pub reply: Result<Replied, NoMemory>,
}

/// The answer to a request that one of rules 1 to 15 denies.
pub(crate) fn deny(request: &Request<'_>, rule: Rule) -> Answer
    ensures verdict { result.verdict ≡ Denied rule }
    ensures call { result.call ≡ None }
    ensures reply { IfOk result.reply (λ replied.
        Says request.now.head.now request.now.last (denied [] rule) replied) }
{
    Answer {
        verdict: Verdict::Denied(rule),
        call: None,
        reply: denial(request, rule),
    }
}

// There was no memory, and no nonce call was made.
fn give_up() -> Answer
    ensures call { result.call ≡ None }
    ensures reply { (want : WantOfMemory) × (result.reply ≡ Err want) }
{
    Answer {
        verdict: Verdict::Admitted,
        call: None,
        reply: Err(NoMemory),
    }
}

/// The answer to a request that passes rules 1 to 15.
pub(crate) fn answer_passed<N: Nonces, O: Objects>(
    request: &Request<'_>,
    passed: &Passed,
    nonces: &mut N,
    objects: &mut O,
) -> Answer
    requires short { IsShort passed.now }
    requires early { passed.now.moment < MOMENT_BOUND }
    requires some { 1 ≤ N.calls_left nonces.old }
    ensures { (ask : AskValue) → IsPassed request.now.conf.now ask passed.now
        → AnswersRequest N.gains request.now.conf.now request.now.head.now request.now.last ask (record {
          nonces = nonces.old;
          objects = O.objects objects.old;
          faults = O.object_count objects.old;
        }) (record {
          nonces = nonces.new;
          objects = O.objects objects.new;
          faults = O.object_count objects.new;
        }) result }
{
    let prepared = match prepare(request, passed) {
        Ok(prepared) => prepared,
        Err(_) => return give_up(),
    };
    let call = match take_nonce(request.alloc, nonces, passed) {
        Ok(call) => call,
        Err(_) => return give_up(),
    };
    match verdict_by(call) {
        Verdict::Denied(rule) => Answer {
            verdict: Verdict::Denied(rule),
            call,
            reply: denial(request, rule),
        },
        Verdict::Admitted => Answer {
            verdict: Verdict::Admitted,
            call,
            reply: serve(request, &passed.content, prepared, objects),
        },
    }
}
