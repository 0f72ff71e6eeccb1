//! The replies to one head.
ghost use Rattle.std.specs.Prelude.{◌≡◌, ◌++◌, ◌∷◌, [], codes, IfOk, None};
ghost use Rattle.usp_http.specs.Replies.{IsStatus, reply_text};
ghost use Rattle.usp_edge.specs.Outcomes.{denied, redirected, shown, unshown};
ghost use Rattle.usp_edge.specs.Replies.{body_line, body_reply, closing_text, denial_body, denial_status, is_bare, method_reply, reply_to};
ghost use Rattle.usp_edge.specs.Requests.{Says, field_by, issued_by};

use crate::answer::Replied;
use crate::memory::NoMemory;
use crate::prepared::Renewal;
use crate::request::Request;
use std::alloc::Global;
use usp_base::Octets;
use usp_http::{Field, Method, Reply, reply_bytes};
use usp_issue::Signed;
use usp_jws::Token;
use usp_rules::Rule;

fn is_bare(method: Method) -> bool
    ensures { result ≡ is_bare method }
{
    match method {
        Method::Bare => true,
        Method::Get | Method::Other => false,
    }
}

// The bytes of a reply to a head.
fn text_of(
    request: &Request<'_>,
    status: u16,
    field: Field,
    body: Vec<u8>,
) -> Result<Octets, NoMemory>
    requires { IsStatus status }
    ensures { IfOk result (λ text. text
        ≡ reply_text (reply_to request.now.head.now request.now.last status field body.items)) }
{
    let reply = Reply {
        status,
        body: Octets::of(body),
        field,
        last: request.last,
        bare: is_bare(request.head.method),
    };
    Ok(Octets::of(reply_bytes(request.alloc, &reply)?))
}

fn line(alloc: Global, text: &[u8]) -> Result<Vec<u8>, NoMemory>
    ensures { IfOk result (λ body. body.items ≡ body_line text.now) }
{
    let mut body = Vec::new(alloc);
    body.extend_from_slice(text)?;
    body.push(b'\n')?;
    Ok(body)
}

/// The reply to a head that announces a body.
pub(crate) fn body_text(request: &Request<'_>) -> Result<Octets, NoMemory>
    ensures { IfOk result (λ text. text ≡ reply_text (body_reply request.now.head.now)) }
{
    let body = line(request.alloc, b"body")?;
    let closing = Request {
        alloc: request.alloc,
        kit: request.kit,
        conf: request.conf,
        head: request.head,
        last: true,
    };
    text_of(&closing, 400, Field::Plain, body)
}

/// The reply to a method that is not served.
pub(crate) fn method_text(request: &Request<'_>) -> Result<Octets, NoMemory>
    ensures { IfOk result (λ text.
        text ≡ reply_text (method_reply request.now.head.now request.now.last)) }
{
    let body = line(request.alloc, b"method")?;
    text_of(request, 405, Field::Allow, body)
}

/// The reply to what is no head.
pub(crate) fn closing_text(alloc: Global) -> Result<Octets, NoMemory>
    ensures { IfOk result (λ text. text ≡ closing_text) }
{
    let reply = Reply {
        status: 400,
        body: Octets::of(line(alloc, b"bad head")?),
        field: Field::Plain,
        last: true,
        bare: false,
    };
    Ok(Octets::of(reply_bytes(alloc, &reply)?))
}

fn denial_status(rule: Rule) -> u16
    ensures value { result ≡ denial_status rule }
    ensures status { IsStatus result }
{
    match rule {
        Rule::Uri => 400,
        Rule::Room => 503,
        _ => 403,
    }
}

fn denial_body(alloc: Global, rule: Rule) -> Result<Vec<u8>, NoMemory>
    ensures { IfOk result (λ body. body.items ≡ denial_body rule) }
{
    let number = rule.number().to_string(alloc)?;
    let mut body = Vec::new(alloc);
    body.extend_from_slice(b"denied ")?;
    body.extend_from_slice(number.as_bytes())?;
    body.push(b' ')?;
    body.extend_from_slice(rule.name())?;
    body.push(b'\n')?;
    Ok(body)
}

/// The reply to a request that a rule denies.
pub(crate) fn denial(request: &Request<'_>, rule: Rule) -> Result<Replied, NoMemory>
    ensures { IfOk result (λ replied.
        Says request.now.head.now request.now.last (denied [] rule) replied) }
{
    let status = denial_status(rule);
    let body = denial_body(request.alloc, rule)?;
    Ok(Replied {
        status,
        text: text_of(request, status, Field::Plain, body)?,
        route: None,
        issued: None,
    })
}

/// The reply that sends a request on (RFC 9110 section 15.4.3).
pub(crate) fn redirection(
    request: &Request<'_>,
    place: u16,
    signed: Signed,
) -> Result<Replied, NoMemory>
    ensures { IfOk result (λ replied.
        Says request.now.head.now request.now.last (redirected [] place signed) replied) }
{
    let Signed {
        token,
        location,
        ..
    } = signed;
    let text = text_of(
        request,
        302,
        Field::Location(location),
        Vec::new(request.alloc),
    )?;
    Ok(Replied {
        status: 302,
        text,
        route: Some(place),
        issued: Some(token),
    })
}

// The reply that shows an object with this field.
fn showing_with(
    request: &Request<'_>,
    field: Field,
    issued: Option<Token>,
    object: Vec<u8>,
) -> Result<Replied, NoMemory>
    ensures { IfOk result (λ replied. Says request.now.head.now request.now.last
        (shown [] [] issued field object.items) replied) }
{
    Ok(Replied {
        status: 200,
        text: text_of(request, 200, field, object)?,
        route: None,
        issued,
    })
}

/// The reply that shows an object, and sets the cookie of a renewed token.
pub(crate) fn showing(
    request: &Request<'_>,
    renewal: Option<Renewal>,
    object: Vec<u8>,
) -> Result<Replied, NoMemory>
    ensures { IfOk result (λ replied. Says request.now.head.now request.now.last
        (shown [] [] (issued_by renewal) (field_by renewal) object.items) replied) }
{
    match renewal {
        None => showing_with(request, Field::Plain, None, object),
        Some(Renewal { token, cookie }) => {
            showing_with(request, Field::SetCookie(cookie), Some(token), object)
        }
    }
}

/// The reply where there is nothing to show.
pub(crate) fn absence(request: &Request<'_>, status: u16, text: &[u8]) -> Result<Replied, NoMemory>
    requires { IsStatus status }
    ensures { IfOk result (λ replied. Says request.now.head.now request.now.last
        (unshown [] [] status text.now) replied) }
{
    let body = line(request.alloc, text)?;
    Ok(Replied {
        status,
        text: text_of(request, status, Field::Plain, body)?,
        route: None,
        issued: None,
    })
}
