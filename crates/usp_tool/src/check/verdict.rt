//! The verdict on a request, by all rules.
ghost use Rattle.std.specs.Prelude.{◌≡◌, ◌≤◌, ◌<◌, ◌+◌, ◌++◌, List, ℕ, IfOk, OnOk, codes};
ghost use Rattle.std.specs.Option.{unwrap_or};
ghost use Rattle.usp_claims.specs.Table.{number_claim};
ghost use Rattle.usp_nonce.specs.History.{Call, IsLegal};
ghost use Rattle.usp_nonce.specs.Stands.{StandsFor};
ghost use Rattle.usp_nonce.specs.declared.limits.TheConstants.{MAX_CALLS, MAX_UNTIL};
ghost use Rattle.usp_rules.specs.Judging.{Judges};
ghost use Rattle.usp_rules.specs.declared.judged.Judged.TheVariants.{Passed};
ghost use Rattle.usp_tool.specs.Check.Verdicts.{IsDecided, status_with, verdict_by, verdict_line};

use crate::memory::NoMemory;
use crate::output::push_number;
use std::alloc::Global;
use usp_base::Status;
use usp_claims::Claims;
use usp_ext::Kit;
use usp_nonce::{Answer, MAX_UNTIL, NonceTable, nonce_key};
use usp_rules::{Ask, Judged, Profile, Rule, judge};
use usp_uri::Uri;

/// Whether a request is admitted, with its content, or which rule denies it.
#[derive(Drop)]
pub enum Verdict {
    Admitted(Uri),
    /// The first rule that fails.
    Denied(Rule),
}

// Until when a nonce is kept: `exp`, or as long as can be without it.
#[tactic(auto, using(crate::proofs::Checking::Verdicts::claim_bound))]
fn until_of(claims: &Claims) -> u64
    ensures value { result ≡ unwrap_or (number_claim (codes "exp") claims.now) MAX_UNTIL }
    ensures bound { result ≤ MAX_UNTIL }
{
    match claims.exp() {
        None => MAX_UNTIL,
        Some(exp) => exp,
    }
}

fn verdict_by(content: Uri, answer: Answer) -> Verdict
    ensures { result ≡ verdict_by content answer }
{
    match answer {
        Answer::Taken => Verdict::Admitted(content),
        Answer::Late => Verdict::Denied(Rule::Late),
        Answer::Seen => Verdict::Denied(Rule::Seen),
        Answer::Full => Verdict::Denied(Rule::Room),
    }
}

// Rules 16 to 18, of a request that passes the others.
fn decide_passed(
    alloc: Global,
    table: &mut NonceTable,
    ask: &Ask<'_>,
    content: Uri,
    claims: &Claims,
) -> Result<Verdict, NoMemory>
    requires { table.old.calls < MAX_CALLS }
    ensures decided { (profile : Profile) (token : List ℕ) (key : ℕ) (before : List Call)
        → Judges profile ask.now (Passed content token claims.now key)
        → StandsFor table.old before → IsLegal table.old.room before
        → IfOk result (λ verdict.
        IsDecided profile table.old.room ask.now before verdict table.new) }
    ensures calls { table.new.calls ≤ table.old.calls + 1 }
    ensures room { table.new.room ≡ table.old.room }
{
    let Some(jti) = claims.jti() else {
        return Ok(Verdict::Admitted(content));
    };
    let key = nonce_key(alloc, jti, content.text())?;
    let turned = table.take(key, ask.moment(), until_of(claims));
    Ok(verdict_by(content, turned.answer))
}

/// The verdict on a request. Where rules 1 to 15 hold and there is a `jti`, its nonce is asked of the table.
pub fn decide(
    alloc: Global,
    kit: &Kit,
    profile: &Profile,
    table: &mut NonceTable,
    ask: &Ask<'_>,
) -> Result<Verdict, NoMemory>
    requires { table.old.calls < MAX_CALLS }
    ensures decided { (before : List Call) → StandsFor table.old before
        → IsLegal table.old.room before
        → IfOk result (λ verdict.
        IsDecided profile.now table.old.room ask.now before verdict table.new) }
    ensures calls { table.new.calls ≤ table.old.calls + 1 }
    ensures room { table.new.room ≡ table.old.room }
{
    match judge(alloc, kit, profile, ask)? {
        Judged::Denied(rule) => Ok(Verdict::Denied(rule)),
        Judged::Passed {
            content,
            claims,
            ..
        } => decide_passed(alloc, table, ask, content, &claims),
    }
}

/// The status of a run that had this one before the verdict.
pub fn status_with(verdict: &Verdict, status: Status) -> Status
    ensures { result ≡ status_with verdict.now status }
{
    match (verdict, status) {
        (Verdict::Denied(_), Status::Done) => Status::Denials,
        (_, status) => status,
    }
}

/// Puts the line of a verdict behind a text.
#[tactic(auto, using(crate::proofs::Texts::admitted_text, crate::proofs::Texts::denied_text))]
pub fn push_verdict(
    alloc: Global,
    text: &mut Vec<u8>,
    number: u64,
    verdict: &Verdict,
) -> Result<(), NoMemory>
    ensures { OnOk result (text.new.items ≡ text.old.items ++ verdict_line number verdict.now) }
{
    push_number(alloc, text, number)?;
    match verdict {
        Verdict::Admitted(content) => {
            text.extend_from_slice(b" admitted ")?;
            text.extend_from_slice(content.text())?;
        }
        Verdict::Denied(rule) => {
            text.extend_from_slice(b" denied ")?;
            push_number(alloc, text, rule.number())?;
            text.push(b' ')?;
            text.extend_from_slice(rule.name())?;
        }
    }
    text.push(b'\n')?;
    Ok(())
}
