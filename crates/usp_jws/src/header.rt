//! The header of a token (RFC 7515 section 4.1).
ghost use Rattle.std.specs.Prelude.{◌≡◌, ◌↔◌, IsTrue, IfOk, IfErr};
ghost use Rattle.std.specs.Option.{option_and_then, option_copied};
ghost use Rattle.usp_jws.specs.Base64url.{IsB64u, b64u};
ghost use Rattle.usp_jws.specs.Headers.{IsHeader, RefusesHeader, SpellsHeader, has_bad_kid, has_parameter, header_fault, is_hs256, json_fault, kid_of, parameter};
ghost use Rattle.usp_jws.specs.declared.header.HeaderFault.TheVariants.{NoMemory as IsMemory};
ghost use Rattle.usp_json.specs.Scalars.{text_in};

use crate::{NoMemory, Parts, decode_base64url};
use std::alloc::Global;
use std::error::Error;
use std::fmt;
use usp_json::{Json, JsonFault, Members, Text, read_members};

/// What a header says, beside the algorithm (RFC 7515 section 4.1).
#[derive(Debug, Drop)]
pub struct Header {
    /// The name of the key (section 4.1.4).
    pub kid: Option<Text>,
}

/// Why a header is refused. The first that applies is named.
#[derive(Clone, Copy, Debug, PartialEq, Eq)]
pub enum HeaderFault {
    /// The header is no JSON object within the limits; never for want of memory.
    Json(JsonFault),
    /// There is no `alg`.
    NoAlg,
    /// `alg` is not the text `HS256`.
    OtherAlg,
    /// There is a `crit`: no extension is understood.
    Crit,
    /// There is a `zip`.
    Zip,
    /// There is an `enc`.
    Enc,
    /// `kid` is no text.
    BadKid,
    /// There was no memory.
    NoMemory,
}

impl HeaderFault {
    /// Whether it is want of memory.
    pub fn is_memory(self) -> bool
        ensures { IsTrue result ↔ self ≡ IsMemory }
    {
        matches!(self, HeaderFault::NoMemory)
    }
}

impl fmt::Display for HeaderFault {
    fn fmt<W: fmt::Write>(&self, f: &mut fmt::Formatter<W>) -> fmt::Result {
        match self {
            HeaderFault::Json(fault) => write!(f, "the header must be a JSON object: {fault}"),
            HeaderFault::NoAlg => write!(f, "the header must have an `alg`"),
            HeaderFault::OtherAlg => write!(f, "the header's `alg` must be HS256"),
            HeaderFault::Crit => write!(f, "the header must have no `crit`"),
            HeaderFault::Zip => write!(f, "the header must have no `zip`"),
            HeaderFault::Enc => write!(f, "the header must have no `enc`"),
            HeaderFault::BadKid => write!(f, "the header's `kid` must be a text"),
            HeaderFault::NoMemory => write!(f, "there was no memory"),
        }
    }
}

impl Error for HeaderFault {}

impl From<NoMemory> for HeaderFault {
    ghost from_gives = { λ _ e. e ≡ IsMemory };

    fn from(_: NoMemory) -> Self {
        HeaderFault::NoMemory
    }
}

fn has_parameter(members: &Members, name: &[u8]) -> bool
    ensures { result ≡ has_parameter name.now members.now }
{
    members.find(name).is_some()
}

fn text_of<'a>(members: &'a Members, name: &[u8]) -> Option<&'a [u8]>
    ensures { option_copied result ≡ option_and_then text_in (parameter name.now members.now) }
{
    members.find(name)?.text()
}

fn is_hs256(members: &Members) -> bool
    ensures { result ≡ is_hs256 members.now }
{
    match text_of(members, b"alg") {
        None => false,
        Some(text) => text == b"HS256".as_slice(),
    }
}

fn has_bad_kid(members: &Members) -> bool
    ensures { result ≡ has_bad_kid members.now }
{
    has_parameter(members, b"kid") && text_of(members, b"kid").is_none()
}

// Why the members are no header.
fn header_fault(members: &Members) -> Option<HeaderFault>
    ensures { result ≡ header_fault members.now }
{
    if !has_parameter(members, b"alg") {
        return Some(HeaderFault::NoAlg);
    }
    if !is_hs256(members) {
        return Some(HeaderFault::OtherAlg);
    }
    if has_parameter(members, b"crit") {
        return Some(HeaderFault::Crit);
    }
    if has_parameter(members, b"zip") {
        return Some(HeaderFault::Zip);
    }
    if has_parameter(members, b"enc") {
        return Some(HeaderFault::Enc);
    }
    if has_bad_kid(members) {
        return Some(HeaderFault::BadKid);
    }
    None
}

// The fault of bytes that are no JSON object.
fn json_fault(fault: JsonFault) -> HeaderFault
    ensures { result ≡ json_fault fault }
{
    match fault {
        JsonFault::NoMemory => HeaderFault::NoMemory,
        other => HeaderFault::Json(other),
    }
}

// A copy of the name of the key.
fn kid_of(alloc: Global, members: &Members) -> Result<Option<Text>, NoMemory>
    ensures { IfOk result (λ kid. kid ≡ kid_of members.now) }
{
    let Some(Json::Str(text)) = members.find(b"kid") else {
        return Ok(None);
    };
    Ok(Some(Text::of(alloc, text.text())?))
}

// The bytes of a part.
fn bytes_of(alloc: Global, part: &[u8]) -> Result<Vec<u8>, NoMemory>
    requires { IsB64u part.now }
    ensures { IfOk result (λ bytes. part.now ≡ b64u bytes.items) }
{
    match decode_base64url(alloc, part)? {
        Some(bytes) => Ok(bytes),
        None => unreachable!(),
    }
}

// The members that the bytes of a header spell.
#[tactic(auto, using(crate::proofs::Parameters::spelled, crate::proofs::Parameters::no_object))]
fn members_of(alloc: Global, bytes: &[u8]) -> Result<Members, HeaderFault>
    ensures read { IfOk result (λ members. SpellsHeader (b64u bytes.now) members) }
    ensures refused { IfErr result (λ fault. RefusesHeader fault (b64u bytes.now)) }
{
    match read_members(alloc, bytes) {
        Ok(members) => Ok(members),
        Err(fault) => Err(json_fault(fault)),
    }
}

/// Reads a header from its bytes, which are no longer in base64url.
#[tactic(auto, using(crate::proofs::Parameters::refuses))]
pub(crate) fn header_of(alloc: Global, bytes: &[u8]) -> Result<Header, HeaderFault>
    ensures read { IfOk result (λ header. IsHeader (b64u bytes.now) header.kid) }
    ensures refused { IfErr result (λ fault. RefusesHeader fault (b64u bytes.now)) }
{
    let members = members_of(alloc, bytes)?;
    if let Some(fault) = header_fault(&members) {
        return Err(fault);
    }
    let kid = kid_of(alloc, &members)?;
    Ok(Header { kid })
}

/// Reads the header of a token (RFC 7515 section 4.1). Parameters that it does not know are ignored.
pub fn read_header(alloc: Global, parts: &Parts<'_>) -> Result<Header, HeaderFault>
    ensures read { IfOk result (λ header. IsHeader parts.now.header header.kid) }
    ensures refused { IfErr result (λ fault. RefusesHeader fault parts.now.header) }
{
    let bytes = bytes_of(alloc, parts.header())?;
    header_of(alloc, &bytes)
}
