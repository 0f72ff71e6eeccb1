//! What rules 1 to 15 say of a request.
ghost use Rattle.std.specs.Prelude.{◌≡◌, ◌≤◌, ◌<◌, IfOk, Err, Ok};
ghost use Rattle.usp_base.specs.declared.limits.TheConstants.{MOMENT_BOUND};
ghost use Rattle.usp_uri.specs.Origin.{request_text};
ghost use Rattle.usp_edge.specs.Asks.{ask_of};
ghost use Rattle.usp_edge.specs.Requests.{IsJudgement};

use crate::asks::{brought, cookie_in};
use crate::memory::NoMemory;
use crate::request::Request;
use usp_base::Octets;
use usp_claims::Claims;
use usp_rules::{Ask, Judged, Rule, judge};
use usp_uri::Uri;

/// What passes rules 1 to 15.
#[derive(Drop)]
pub(crate) struct Passed {
    /// The URI without its package.
    pub content: Uri,
    pub claims: Claims,
    /// In seconds since 1970.
    pub moment: u64,
}

/// The token that a request brings, and what passes, or the first rule that fails.
#[derive(Drop)]
pub(crate) struct Judgement {
    pub token: Option<Octets>,
    pub passed: Result<Passed, Rule>,
}

/// Judges a request for this URI at a moment.
pub(crate) fn judge_request(
    request: &Request<'_>,
    uri: &[u8],
    moment: u64,
) -> Result<Judgement, NoMemory>
    requires moment { moment < MOMENT_BOUND }
    requires uri { uri.now
        ≡ request_text request.now.conf.now.scheme request.now.head.now.host request.now.head.now.target }
    ensures { IfOk result (λ judgement. IsJudgement request.now.conf.now
        (ask_of request.now.conf.now request.now.head.now moment) judgement) }
{
    let profile = request.conf.site().profile();
    let cookie = cookie_in(&profile.attribute, request.head.cookies.rows());
    let token = brought(request.alloc, &profile.attribute, uri, cookie)?;
    let ask = Ask::new(uri, cookie, moment);
    let judged = judge(request.alloc, request.kit, profile, &ask)?;
    match judged {
        Judged::Denied(rule) => Ok(Judgement {
            token,
            passed: Err(rule),
        }),
        Judged::Passed {
            content,
            claims,
            ..
        } => Ok(Judgement {
            token,
            passed: Ok(Passed {
                content,
                claims,
                moment,
            }),
        }),
    }
}
