//! The nonce call of a request (RFC 9246 section 2.1.7).
ghost use Rattle.std.specs.Prelude.{◌≡◌, ◌≤◌, ◌<◌, IfOk, OnErr, List, codes};
ghost use Rattle.std.specs.Option.{unwrap_or};
ghost use Rattle.usp_base.specs.declared.limits.TheConstants.{MOMENT_BOUND};
ghost use Rattle.usp_claims.specs.Table.{number_claim};
ghost use Rattle.usp_nonce.specs.declared.limits.TheConstants.{MAX_UNTIL};
ghost use Rattle.usp_edge.specs.Calls.{Placed};
ghost use Rattle.usp_edge.specs.Outcomes.{Calls, answer_verdict, turn_of, verdict_by};

use crate::judgement::Passed;
use crate::memory::NoMemory;
use crate::{Nonces, Verdict};
use std::alloc::Global;
use usp_claims::Claims;
use usp_nonce::{Answer, MAX_UNTIL, Turned, nonce_key};
use usp_rules::Rule;

// Until when a nonce is kept: `exp`, or as long as can be without it.
#[tactic(auto, using(crate::proofs::Bounds::claim_bound))]
fn until_of(claims: &Claims) -> u64
    ensures value { result ≡ unwrap_or (number_claim (codes "exp") claims.now) MAX_UNTIL }
    ensures bound { result ≤ MAX_UNTIL }
{
    match claims.exp() {
        None => MAX_UNTIL,
        Some(exp) => exp,
    }
}

/// Makes the nonce call of a request that passes rules 1 to 15, where its claims have a nonce.
pub(crate) fn take_nonce<N: Nonces>(
    alloc: Global,
    nonces: &mut N,
    passed: &Passed,
) -> Result<Option<Turned>, NoMemory>
    requires early { passed.now.moment < MOMENT_BOUND }
    requires some { 1 ≤ N.calls_left nonces.old }
    ensures taken { IfOk result (λ turned. (calls : List Placed)
        × Calls passed.now.claims passed.now.content passed.now.moment calls
        × (turned ≡ turn_of calls) × N.gains nonces.old nonces.new calls) }
    ensures not { OnErr result (nonces.new ≡ nonces.old) }
{
    let Some(jti) = passed.claims.jti() else {
        return Ok(None);
    };
    let Ok(key) = nonce_key(alloc, jti, passed.content.text()) else {
        return Err(NoMemory);
    };
    Ok(Some(nonces.take(key, passed.moment, until_of(&passed.claims))))
}

fn answer_verdict(answer: Answer) -> Verdict
    ensures { result ≡ answer_verdict answer }
{
    match answer {
        Answer::Taken => Verdict::Admitted,
        Answer::Late => Verdict::Denied(Rule::Late),
        Answer::Seen => Verdict::Denied(Rule::Seen),
        Answer::Full => Verdict::Denied(Rule::Room),
    }
}

/// What rules 16 to 18 say.
pub(crate) fn verdict_by(call: Option<Turned>) -> Verdict
    ensures { result ≡ verdict_by call }
{
    match call {
        None => Verdict::Admitted,
        Some(turned) => answer_verdict(turned.answer),
    }
}
