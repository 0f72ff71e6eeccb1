//! A profile, tokens under its key, and what is judged of an ask.
use crate::{Ask, Judged, NoMemory, Profile, Rule, judge};
use base64::engine::general_purpose::URL_SAFE_NO_PAD;
use std::alloc::Global;
use std::test::Fail;
use usp_base::Rows;
use usp_ext::{
    Extensions, Kit, Setting, TestKind, equals, is_any, is_at_most, is_one_of, is_path_prefix,
};
use usp_json::Text;
use usp_jws::{Key, MAX_PAYLOAD, Ring, seal};
use usp_package::AttrName;

pub const SECRET: [u8; 32] = [1; 32];

// Before a token.
pub const FRONT: &str = "http://h/v?URISigningPackage=";

// The claims that each token of a table has.
pub const CONTAINER: &str = "\"cdniuc\":\"regex:^http://h/\"";

pub fn joined(alloc: Global, pieces: &[&str]) -> Result<Vec<u8>, Fail> {
    let mut text = Vec::new(alloc);
    for piece in pieces {
        text.extend_from_slice(piece.as_bytes())?;
    }
    Ok(text)
}

fn texts_of(alloc: Global, texts: &[&str]) -> Result<Rows<Text>, Fail> {
    let mut rows = Vec::new(alloc);
    for text in texts {
        rows.push(Text::of(alloc, *text)?)?;
    }
    Ok(Rows::of(rows))
}

pub fn key_of(alloc: Global, secret: &[u8]) -> Result<Key, Fail> {
    Ok(Key::new(alloc, b"k1", b"cp", secret)?)
}

// A ring of a key that seals nothing and one of that secret, and the claim `x` that must be `yes`.
pub fn profile_of(
    alloc: Global,
    secret: &[u8],
    issuers: &[&str],
    audience: &[&str],
) -> Result<Profile, Fail> {
    let mut keys = Vec::new(alloc);
    keys.push(Key::new(alloc, b"k0", b"dn", &[9; 32])?)?;
    keys.push(key_of(alloc, secret)?)?;
    let Some(attribute) = AttrName::new(b"URISigningPackage") else {
        return Err(Fail::new("a name of an attribute"));
    };
    let mut extensions = Extensions::empty(alloc);
    let yes = Setting::Words(Text::of(alloc, "yes")?);
    extensions.push(Text::of(alloc, "x")?, TestKind::Equals, yes)?;
    Ok(Profile {
        ring: Ring::new(keys)?,
        issuers: texts_of(alloc, issuers)?,
        audience: texts_of(alloc, audience)?,
        attribute,
        extensions,
    })
}

// A token over a payload, under the profile's own key.
pub fn sealed(alloc: Global, payload: &[u8]) -> Result<String, Fail> {
    if payload.len() > MAX_PAYLOAD {
        return Err(Fail::new("a payload that is too long to seal"));
    }
    let token = seal(alloc, &key_of(alloc, &SECRET)?, payload)?;
    Ok(String::from_utf8(token.text().to_vec(alloc)?)?)
}

// A token over a header of any kind, under the profile's own key.
pub fn sealed_under(alloc: Global, header: &str, payload: &str) -> Result<String, Fail> {
    let mut text = URL_SAFE_NO_PAD.encode(alloc, header.as_bytes())?;
    text.push('.')?;
    URL_SAFE_NO_PAD.encode_string(payload.as_bytes(), &mut text)?;
    let mac = key_of(alloc, &SECRET)?.mac(text.as_bytes());
    text.push('.')?;
    URL_SAFE_NO_PAD.encode_string(&mac, &mut text)?;
    Ok(text)
}

pub fn judged<'a>(
    alloc: Global,
    profile: &Profile,
    uri: &'a [u8],
    cookie: Option<&'a [u8]>,
    moment: u32,
) -> Result<Judged<'a>, NoMemory> {
    let kit = Kit::new(is_any, equals, is_one_of, is_at_most, is_path_prefix);
    judge(alloc, &kit, profile, &Ask::new(uri, cookie, moment as u64))
}

// The rule that denies, and none where the ask passes.
pub fn denied_by(
    alloc: Global,
    profile: &Profile,
    uri: &[u8],
    cookie: Option<&[u8]>,
    moment: u32,
) -> Result<Option<Rule>, Fail> {
    match judged(alloc, profile, uri, cookie, moment)? {
        Judged::Denied(rule) => Ok(Some(rule)),
        Judged::Passed { .. } => Ok(None),
    }
}

// The same of a token over the container and these claims, in the URI.
pub fn claims_denied_by(
    alloc: Global,
    profile: &Profile,
    claims: &str,
    moment: u32,
) -> Result<Option<Rule>, Fail> {
    let payload = joined(alloc, &["{", CONTAINER, claims, "}"])?;
    let token = sealed(alloc, &payload)?;
    let uri = joined(alloc, &[FRONT, token.as_str()])?;
    denied_by(alloc, profile, &uri, None, moment)
}
