//! Edges, claims and tokens for random ledgers.
use std::alloc::Global;
use std::test::Fail;
use usp_base::Rows;
use usp_ext::{Extensions, Kit, equals, is_any, is_at_most, is_one_of, is_path_prefix};
use usp_json::Text;
use usp_jws::{Key, MAX_PAYLOAD, Ring, Token, seal};
use usp_package::AttrName;
use usp_rules::{Ask, Judged, Profile, hash_container, judge};
use usp_uri::read_uri;

/// How many edges there are, and how many hosts. A provider and each edge have a key.
pub const EDGES: u8 = 3;

/// The content `http://hHOST/v/PATH`.
#[derive(Clone, Copy, Debug, PartialEq, Eq)]
pub struct Content {
    pub host: u8,
    pub path: u8,
}

/// A container: all contents, those of a host, those of a path, or one.
#[derive(Clone, Copy, Debug, PartialEq, Eq)]
pub enum Held {
    All,
    Host(u8),
    Path(u8),
    Only(Content),
}

impl Held {
    /// Whether the content is in it.
    pub fn has(self, content: Content) -> bool {
        match self {
            Held::All => true,
            Held::Host(host) => host == content.host,
            Held::Path(path) => path == content.path,
            Held::Only(only) => only == content,
        }
    }
}

/// The claims of a token.
#[derive(Clone, Copy, Debug, PartialEq, Eq)]
pub struct Sheet {
    pub audience: Option<u8>,
    pub begins: Option<u32>,
    pub ends: Option<u32>,
    pub period: Option<u32>,
    pub held: Held,
}

pub fn uri_text(alloc: Global, content: Content) -> Result<String, Fail> {
    let host = content.host;
    let path = content.path;
    Ok(format!(in alloc; "http://h{host}/v/{path}")?)
}

fn container_text(alloc: Global, held: Held) -> Result<String, Fail> {
    match held {
        Held::All => Ok(String::from_str(alloc, "regex:^http://h")?),
        Held::Host(host) => Ok(format!(in alloc; "regex:^http://h{host}/")?),
        Held::Path(path) => Ok(format!(in alloc; "regex:/v/{path}$")?),
        Held::Only(content) => {
            let text = uri_text(alloc, content)?;
            let Ok(uri) = read_uri(alloc, text.as_bytes()) else {
                return Err(Fail::new("a URI"));
            };
            let container = hash_container(alloc, &uri)?;
            Ok(String::from_str(alloc, container.text())?)
        }
    }
}

fn push_number(text: &mut String, name: &str, number: Option<u32>) -> Result<(), Fail> {
    if let Some(number) = number {
        write!(text, ",\"{name}\":{number}")?;
    }
    Ok(())
}

fn payload_of(alloc: Global, sheet: &Sheet) -> Result<String, Fail> {
    let container = container_text(alloc, sheet.held)?;
    let mut text = String::from_str(alloc, "{\"cdniuc\":\"")?;
    text.push_str(container.as_str())?;
    text.push('"')?;
    if let Some(edge) = sheet.audience {
        write!(text, ",\"aud\":\"e{edge}\"")?;
    }
    push_number(&mut text, "nbf", sheet.begins)?;
    push_number(&mut text, "cdniets", sheet.period)?;
    if sheet.period.is_some() {
        text.push_str(",\"cdnistt\":1")?;
    }
    // A renewal that adds an end puts it behind the other claims.
    push_number(&mut text, "exp", sheet.ends)?;
    text.push('}')?;
    Ok(text)
}

/// The key of a signer: an edge, or the provider behind them.
fn key_of(alloc: Global, signer: u8) -> Result<Key, Fail> {
    let kid = format!(in alloc; "k{signer}")?;
    Ok(Key::new(alloc, kid.as_bytes(), b"cp", &[signer; 32])?)
}

/// The keys of the edges, and that of the provider behind them.
pub fn signers(alloc: Global) -> Result<Vec<Key>, Fail> {
    let mut keys = Vec::new(alloc);
    for signer in 0..EDGES + 1 {
        keys.push(key_of(alloc, signer)?)?;
    }
    Ok(keys)
}

/// A token of these claims.
pub fn token_of(alloc: Global, keys: &[Key], signer: u8, sheet: &Sheet) -> Result<Token, Fail> {
    let payload = payload_of(alloc, sheet)?;
    let bytes = payload.as_bytes();
    match keys.get(signer as usize) {
        Some(key) if bytes.len() <= MAX_PAYLOAD => Ok(seal(alloc, key, bytes)?),
        _ => Err(Fail::new("a key, and a payload that is short enough to seal")),
    }
}

/// What an edge judges by: the keys of all, and its own identity.
fn profile_of(alloc: Global, edge: u8) -> Result<Profile, Fail> {
    let mut issuers = Vec::new(alloc);
    issuers.push(Text::of(alloc, "cp")?)?;
    let mut audience = Vec::new(alloc);
    let identity = format!(in alloc; "e{edge}")?;
    audience.push(Text::of(alloc, identity.as_str())?)?;
    let Some(attribute) = AttrName::new(b"URISigningPackage") else {
        return Err(Fail::new("a name of an attribute"));
    };
    Ok(Profile {
        ring: Ring::new(signers(alloc)?)?,
        issuers: Rows::of(issuers),
        audience: Rows::of(audience),
        attribute,
        extensions: Extensions::empty(alloc),
    })
}

pub fn profiles(alloc: Global) -> Result<Vec<Profile>, Fail> {
    let mut profiles = Vec::new(alloc);
    for edge in 0..EDGES {
        profiles.push(profile_of(alloc, edge)?)?;
    }
    Ok(profiles)
}

/// Whether an edge admits a token for a content at a moment.
pub fn is_admitted(
    alloc: Global,
    profile: &Profile,
    token: &[u8],
    content: Content,
    moment: u32,
) -> Result<bool, Fail> {
    let uri = uri_text(alloc, content)?;
    let kit = Kit::new(is_any, equals, is_one_of, is_at_most, is_path_prefix);
    let ask = Ask::new(uri.as_bytes(), Some(token), moment as u64);
    match judge(alloc, &kit, profile, &ask)? {
        Judged::Denied(_) => Ok(false),
        Judged::Passed { .. } => Ok(true),
    }
}
