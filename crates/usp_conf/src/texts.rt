//! Members that are texts and numbers.
ghost use Rattle.std.specs.Prelude.{◌≡◌, ◌≤◌, true, false, IfOk, OnOk, IfErr, None, Some};
ghost use Rattle.std.specs.Option.{option_map};
ghost use Rattle.serde_json.specs.Find.{get};
ghost use Rattle.serde_json.specs.View.{view};
ghost use Rattle.usp_jws.specs.Letters.{is_identity};
ghost use Rattle.usp_conf.specs.Answers.{Gives};
ghost use Rattle.usp_conf.specs.Letters.{is_scheme};
ghost use Rattle.usp_conf.specs.Members.{name_of};
ghost use Rattle.usp_conf.specs.Texts.{text_of, identity_of, edge_of, scheme_of, attribute_of, attribute_value, number_of, room_of, enforce_value, enforce_of};
ghost use Rattle.usp_conf.specs.declared.fault.ConfFault.TheVariants as fault;
ghost use Rattle.usp_nonce.specs.declared.limits.TheConstants.{MAX_ROOM};

use crate::{ConfFault, Member};
use serde_json::Value;
use std::alloc::Global;
use usp_json::Text;
use usp_jws::is_identity;
use usp_nonce::MAX_ROOM;
use usp_package::AttrName;

// The name of the attribute where the configuration gives none (RFC 9246 section 4.4).
const ATTRIBUTE: &[u8] = b"URISigningPackage";

// A member that may be absent.
pub(crate) fn optional(object: &Value, member: Member) -> Option<&Value>
    ensures { option_map (λ v. view v.now) result ≡ get (name_of member) (view object.now) }
{
    object.get(member.name())
}

// A member that must be there.
pub(crate) fn required(object: &Value, member: Member) -> Result<&Value, ConfFault>
    ensures there { IfOk result (λ v. get (name_of member) (view object.now) ≡ Some (view v.now)) }
    ensures missing { IfErr result (λ e.
        (get (name_of member) (view object.now) ≡ None) × (e ≡ fault.Missing member)) }
{
    match optional(object, member) {
        None => Err(ConfFault::Missing { member }),
        Some(value) => Ok(value),
    }
}

// A text.
pub(crate) fn text_of(alloc: Global, member: Member, value: &Value) -> Result<Text, ConfFault>
    ensures { Gives result (text_of member (view value.now)) }
{
    match value.as_str() {
        None => Err(ConfFault::Kind { member }),
        Some(text) => Ok(Text::of(alloc, text)?),
    }
}

// Refuses a member whose value fails its test.
pub(crate) fn tested(member: Member, passes: bool) -> Result<(), ConfFault>
    ensures passed { OnOk result (passes ≡ true) }
    ensures failed { IfErr result (λ e. (passes ≡ false) × (e ≡ fault.Range member)) }
{
    if passes {
        Ok(())
    } else {
        Err(ConfFault::Range { member })
    }
}

// A text that names an edge, an issuer or an audience.
pub(crate) fn identity_of(alloc: Global, member: Member, value: &Value) -> Result<Text, ConfFault>
    ensures read { Gives result (identity_of member (view value.now)) }
    ensures identity { IfOk result (λ text. is_identity text ≡ true) }
{
    let text = text_of(alloc, member, value)?;
    tested(member, is_identity(text.text().as_bytes()))?;
    Ok(text)
}

fn is_scheme(text: &[u8]) -> bool
    ensures { result ≡ is_scheme text.now }
{
    text == b"http".as_slice() || text == b"https".as_slice()
}

pub(crate) fn edge_of(alloc: Global, object: &Value) -> Result<Text, ConfFault>
    ensures read { Gives result (edge_of (view object.now)) }
    ensures identity { IfOk result (λ text. is_identity text ≡ true) }
{
    let member = Member::Edge;
    identity_of(alloc, member, required(object, member)?)
}

pub(crate) fn scheme_of(alloc: Global, object: &Value) -> Result<Text, ConfFault>
    ensures read { Gives result (scheme_of (view object.now)) }
    ensures scheme { IfOk result (λ text. is_scheme text ≡ true) }
{
    let member = Member::Scheme;
    let scheme = text_of(alloc, member, required(object, member)?)?;
    tested(member, is_scheme(scheme.text().as_bytes()))?;
    Ok(scheme)
}

fn attribute_value(alloc: Global, value: &Value) -> Result<AttrName, ConfFault>
    ensures { Gives result (attribute_value (view value.now)) }
{
    let member = Member::Attribute;
    let text = text_of(alloc, member, value)?;
    match AttrName::new(text.text().as_bytes()) {
        None => Err(ConfFault::Range { member }),
        Some(name) => Ok(name),
    }
}

pub(crate) fn attribute_of(alloc: Global, object: &Value) -> Result<AttrName, ConfFault>
    ensures { Gives result (attribute_of (view object.now)) }
{
    match optional(object, Member::Attribute) {
        None => Ok(AttrName::new(ATTRIBUTE).unwrap()),
        Some(value) => attribute_value(alloc, value),
    }
}

// A whole number within a range, spelled without a sign, a fraction and an exponent.
pub(crate) fn number_of(
    member: Member,
    least: u64,
    most: u64,
    value: &Value,
) -> Result<u64, ConfFault>
    ensures read { Gives result (number_of member least most (view value.now)) }
    ensures bounds { IfOk result (λ n. (least ≤ n) × (n ≤ most)) }
{
    match value.as_number() {
        None => Err(ConfFault::Kind { member }),
        Some(number) => match number.as_u64() {
            None => Err(ConfFault::Range { member }),
            Some(number) => {
                tested(member, least <= number && number <= most)?;
                Ok(number)
            }
        },
    }
}

pub(crate) fn room_of(object: &Value) -> Result<u32, ConfFault>
    ensures read { Gives result (room_of (view object.now)) }
    ensures bounds { IfOk result (λ n. (1 ≤ n) × (n ≤ MAX_ROOM)) }
{
    match optional(object, Member::Room) {
        None => Ok(MAX_ROOM),
        Some(value) => {
            let room = number_of(Member::Room, 1, MAX_ROOM as u64, value)?;
            Ok(room as u32)
        }
    }
}

fn enforce_value(value: &Value) -> Result<bool, ConfFault>
    ensures { Gives result (enforce_value (view value.now)) }
{
    let member = Member::Enforce;
    match value.as_bool() {
        None => Err(ConfFault::Kind { member }),
        Some(on) => {
            tested(member, on)?;
            Ok(on)
        }
    }
}

// Enforcement can't be turned off.
pub(crate) fn enforce_of(object: &Value) -> Result<bool, ConfFault>
    ensures { Gives result (enforce_of (view object.now)) }
{
    match optional(object, Member::Enforce) {
        None => Ok(true),
        Some(value) => enforce_value(value),
    }
}
