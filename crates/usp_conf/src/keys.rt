//! Keys, and the edge's own.
ghost use Rattle.std.specs.Prelude.{◌≡◌, ◌==◌, ◌<◌, ◌≤◌, true, false, length, position, IfOk, IfErr, IfSome};
ghost use Rattle.std.specs.Option.{option_map, option_map_or};
ghost use Rattle.std.specs.List.{list_any};
ghost use Rattle.std.specs.Str.{bytes_eq};
ghost use Rattle.serde_json.specs.View.{view};
ghost use Rattle.usp_jws.specs.Keys.{first_repeat};
ghost use Rattle.usp_jws.specs.Letters.{is_kid, is_identity};
ghost use Rattle.usp_issue.specs.Sites.{is_own};
ghost use Rattle.usp_conf.specs.Answers.{Gives};
ghost use Rattle.usp_conf.specs.Keys.{secret_of_length, secret_bytes, secret_value, secret_of, key, kid_of, issuer_of, key_in, distinct_keys, keys_value, keys_of, place_of, sign_value, sign_of};
ghost use Rattle.usp_conf.specs.declared.fault.ConfFault.TheVariants as fault;
ghost use Rattle.usp_jws.specs.declared.limits.TheConstants.{MAX_KEYS, MAX_SECRET, MIN_SECRET};

use crate::lists::{Element, Listed, need_object, rows_of};
use crate::texts::{identity_of, required, tested, text_of};
use crate::{ConfFault, Member};
use serde_json::Value;
use std::alloc::Global;
use usp_base::Octets;
use usp_json::Text;
use usp_jws::{
    Key, MAX_KEYS, MAX_SECRET, MIN_SECRET, Ring, decode_base64url, has_identity, is_kid,
};

// A secret that is long enough (RFC 7518 section 3.2), and not too long.
fn secret_of_length(alloc: Global, kid: &Text, bytes: Octets) -> Result<Octets, ConfFault>
    ensures read { Gives result (secret_of_length kid.now bytes) }
    ensures bounds { IfOk result (λ secret.
        (MIN_SECRET ≤ length secret) × (length secret ≤ MAX_SECRET)) }
{
    let count = bytes.bytes().len();
    if count < MIN_SECRET {
        let kid = Text::of(alloc, kid.text())?;
        return Err(ConfFault::ShortKey { kid });
    }
    tested(Member::Secret, count <= MAX_SECRET)?;
    Ok(bytes)
}

fn secret_bytes(alloc: Global, kid: &Text, bytes: Option<Octets>) -> Result<Octets, ConfFault>
    ensures read { Gives result (secret_bytes kid.now bytes) }
    ensures bounds { IfOk result (λ secret.
        (MIN_SECRET ≤ length secret) × (length secret ≤ MAX_SECRET)) }
{
    match bytes {
        None => Err(ConfFault::Range {
            member: Member::Secret,
        }),
        Some(bytes) => secret_of_length(alloc, kid, bytes),
    }
}

fn secret_value(alloc: Global, kid: &Text, value: &Value) -> Result<Octets, ConfFault>
    ensures read { Gives result (secret_value kid.now (view value.now)) }
    ensures bounds { IfOk result (λ secret.
        (MIN_SECRET ≤ length secret) × (length secret ≤ MAX_SECRET)) }
{
    let text = text_of(alloc, Member::Secret, value)?;
    let bytes = decode_base64url(alloc, text.text().as_bytes())?;
    secret_bytes(alloc, kid, bytes.map(Octets::of))
}

fn secret_of(alloc: Global, kid: &Text, object: &Value) -> Result<Octets, ConfFault>
    ensures read { Gives result (secret_of kid.now (view object.now)) }
    ensures bounds { IfOk result (λ secret.
        (MIN_SECRET ≤ length secret) × (length secret ≤ MAX_SECRET)) }
{
    secret_value(alloc, kid, required(object, Member::Secret)?)
}

fn kid_of(alloc: Global, object: &Value) -> Result<Text, ConfFault>
    ensures read { Gives result (kid_of (view object.now)) }
    ensures kid { IfOk result (λ kid. is_kid kid ≡ true) }
{
    let member = Member::Kid;
    let kid = text_of(alloc, member, required(object, member)?)?;
    tested(member, is_kid(kid.text().as_bytes()))?;
    Ok(kid)
}

fn issuer_of(alloc: Global, object: &Value) -> Result<Text, ConfFault>
    ensures read { Gives result (issuer_of (view object.now)) }
    ensures identity { IfOk result (λ issuer. is_identity issuer ≡ true) }
{
    let member = Member::Issuer;
    identity_of(alloc, member, required(object, member)?)
}

// The key of a name, an issuer and a secret that are right: only memory may be wanting.
fn key_of_parts(alloc: Global, kid: &Text, issuer: &Text, secret: &Octets) -> Result<Key, ConfFault>
    requires kid { is_kid kid.now ≡ true }
    requires issuer { is_identity issuer.now ≡ true }
    requires secret { (MIN_SECRET ≤ length secret.now) × (length secret.now ≤ MAX_SECRET) }
    ensures made { IfOk result (λ made. made ≡ key kid.now issuer.now secret.now) }
    ensures memory { IfErr result (λ e. e ≡ fault.NoMemory) }
{
    let kid = kid.text().as_bytes();
    match Key::new(alloc, kid, issuer.text().as_bytes(), secret.bytes()) {
        Ok(key) => Ok(key),
        Err(_) => Err(ConfFault::NoMemory),
    }
}

// The key that the members of an object are.
pub(crate) fn key_in(alloc: Global, object: &Value) -> Result<Key, ConfFault>
    ensures { Gives result (key_in (view object.now)) }
{
    let kid = kid_of(alloc, object)?;
    let issuer = issuer_of(alloc, object)?;
    let secret = secret_of(alloc, &kid, object)?;
    key_of_parts(alloc, &kid, &issuer, &secret)
}

impl Element for Key {
    ghost use Rattle.usp_conf.specs.Keys.{key_in};
    ghost use Rattle.usp_conf.specs.Lists.{object_of};

    ghost element_of = { λ list. object_of list key_in };

    fn read(alloc: Global, list: Member, value: &Value) -> Result<Key, ConfFault> {
        need_object(list, value)?;
        key_in(alloc, value)
    }
}

// Keys of which no two have one name.
fn distinct_keys(keys: Listed<Key>) -> Result<Ring, ConfFault>
    requires { (1 ≤ length keys) × (length keys ≤ MAX_KEYS) }
    ensures { Gives result (distinct_keys keys) }
{
    match Ring::new(keys.into_vec()) {
        Ok(ring) => Ok(ring),
        Err(_) => Err(ConfFault::Repeat {
            member: Member::Kid,
        }),
    }
}

fn keys_value(alloc: Global, value: &Value) -> Result<Ring, ConfFault>
    ensures { Gives result (keys_value (view value.now)) }
{
    distinct_keys(rows_of(alloc, Member::Keys, 1, MAX_KEYS, value)?)
}

pub(crate) fn keys_of(alloc: Global, object: &Value) -> Result<Ring, ConfFault>
    ensures { Gives result (keys_of (view object.now)) }
{
    keys_value(alloc, required(object, Member::Keys)?)
}

// Whether there is a key at that place whose issuer is one of the issuers.
fn is_own(keys: &[Key], issuers: &[Text], place: usize) -> bool
    ensures { result ≡ is_own keys.now issuers.now place }
{
    match keys.get(place) {
        None => false,
        Some(key) => has_identity(issuers, key.issuer()),
    }
}

// The place of the edge's own key.
fn place_of(ring: &Ring, issuers: &[Text], kid: &[u8]) -> Result<usize, ConfFault>
    ensures read { Gives result (place_of ring.now issuers.now kid.now) }
    ensures own { IfOk result (λ place. is_own ring.now issuers.now place ≡ true) }
    ensures within { IfOk result (λ place. place < length ring.now) }
{
    let member = Member::SignKid;
    match ring.place_named(kid) {
        None => Err(ConfFault::Range { member }),
        Some(place) => {
            tested(member, is_own(ring.keys(), issuers, place))?;
            Ok(place)
        }
    }
}

fn sign_value(
    alloc: Global,
    ring: &Ring,
    issuers: &[Text],
    value: &Value,
) -> Result<usize, ConfFault>
    ensures read { Gives result (sign_value ring.now issuers.now (view value.now)) }
    ensures own { IfOk result (λ place. is_own ring.now issuers.now place ≡ true) }
    ensures within { IfOk result (λ place. place < length ring.now) }
{
    let kid = text_of(alloc, Member::SignKid, value)?;
    place_of(ring, issuers, kid.text().as_bytes())
}

pub(crate) fn sign_of(
    alloc: Global,
    ring: &Ring,
    issuers: &[Text],
    object: &Value,
) -> Result<usize, ConfFault>
    ensures read { Gives result (sign_of ring.now issuers.now (view object.now)) }
    ensures own { IfOk result (λ place. is_own ring.now issuers.now place ≡ true) }
    ensures within { IfOk result (λ place. place < length ring.now) }
{
    sign_value(alloc, ring, issuers, required(object, Member::SignKid)?)
}
