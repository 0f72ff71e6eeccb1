//! The bytes of a reply.
ghost use Rattle.std.specs.Prelude.{◌≡◌, ◌++◌, List, ℕ, codes, length, IfOk, OnOk};
ghost use Rattle.std.specs.Fmt.{decimal};
ghost use Rattle.usp_http.specs.Replies.{IsStatus, body_text, close_text, field_text, line_end, reply_text, status_text};

use crate::NoMemory;
use std::alloc::Global;
use usp_base::Octets;

/// The field that only some replies have.
#[derive(Drop, Debug)]
pub enum Field {
    /// None.
    Plain,
    /// `Set-Cookie` with this value (RFC 6265, section 4.1).
    SetCookie(Octets),
    /// `Location` with this URI (RFC 9110, section 10.2.2).
    Location(Octets),
    /// `Allow: GET, HEAD` (RFC 9110, section 10.2.1).
    Allow,
}

/// A reply to a request.
#[derive(Drop, Debug)]
pub struct Reply {
    /// The status code (RFC 9110, section 15).
    pub status: u16,
    pub body: Octets,
    pub field: Field,
    /// The connection is closed behind it (RFC 9112, section 9.6).
    pub last: bool,
    /// The request was for the head alone.
    pub bare: bool,
}

fn status_text(status: u16) -> &'static [u8]
    ensures { result.now ≡ status_text status }
{
    if status == 200 {
        b"200 OK"
    } else if status == 302 {
        b"302 Found"
    } else if status == 400 {
        b"400 Bad Request"
    } else if status == 403 {
        b"403 Forbidden"
    } else if status == 404 {
        b"404 Not Found"
    } else if status == 405 {
        b"405 Method Not Allowed"
    } else if status == 502 {
        b"502 Bad Gateway"
    } else {
        b"503 Service Unavailable"
    }
}

fn push_number(alloc: Global, text: &mut Vec<u8>, number: usize) -> Result<(), NoMemory>
    ensures { OnOk result (text.new.items ≡ text.old.items ++ decimal number) }
{
    let digits = format!(in alloc; "{number}")?;
    text.extend_from_slice(digits.as_bytes())?;
    Ok(())
}

#[tactic(auto, using(crate::proofs::Texts::three_more))]
fn push_line(text: &mut Vec<u8>, name: &[u8], value: &[u8]) -> Result<(), NoMemory>
    ensures { OnOk result (text.new.items ≡ text.old.items ++ (name.now ++ (value.now ++ line_end))) }
{
    text.extend_from_slice(name)?;
    text.extend_from_slice(value)?;
    text.extend_from_slice(b"\r\n")?;
    Ok(())
}

fn push_field(text: &mut Vec<u8>, field: &Field) -> Result<(), NoMemory>
    ensures { OnOk result (text.new.items ≡ text.old.items ++ field_text field.now) }
{
    match field {
        Field::Plain => Ok(()),
        Field::SetCookie(cookie) => push_line(text, b"Set-Cookie: ", cookie.bytes()),
        Field::Location(location) => push_line(text, b"Location: ", location.bytes()),
        Field::Allow => push_line(text, b"Allow: ", b"GET, HEAD"),
    }
}

fn push_close(text: &mut Vec<u8>, last: bool) -> Result<(), NoMemory>
    ensures { OnOk result (text.new.items ≡ text.old.items ++ close_text last) }
{
    if last {
        text.extend_from_slice(b"Connection: close\r\n")?;
    }
    Ok(())
}

fn push_body(text: &mut Vec<u8>, bare: bool, body: &[u8]) -> Result<(), NoMemory>
    ensures { OnOk result (text.new.items ≡ text.old.items ++ body_text bare body.now) }
{
    if !bare {
        text.extend_from_slice(body)?;
    }
    Ok(())
}

/// The whole text of a reply. To a request for the head alone it is without the body, whose length it has
/// all the same (RFC 9110, section 9.3.2).
pub fn reply_bytes(alloc: Global, reply: &Reply) -> Result<Vec<u8>, NoMemory>
    requires { IsStatus reply.now.status }
    ensures { IfOk result (λ text. text.items ≡ reply_text reply.now) }
{
    let mut text = Vec::new(alloc);
    text.extend_from_slice(b"HTTP/1.1 ")?;
    text.extend_from_slice(status_text(reply.status))?;
    text.extend_from_slice(b"\r\nContent-Length: ")?;
    push_number(alloc, &mut text, reply.body.bytes().len())?;
    text.extend_from_slice(b"\r\n")?;
    push_field(&mut text, &reply.field)?;
    push_close(&mut text, reply.last)?;
    text.extend_from_slice(b"\r\n")?;
    push_body(&mut text, reply.bare, reply.body.bytes())?;
    Ok(text)
}
