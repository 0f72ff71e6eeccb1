//! Routes.
ghost use Rattle.std.specs.Prelude.{◌≡◌, ◌==◌, ◌<◌, ◌≤◌, true, false, length, nat_lt, IfOk, IfErr};
ghost use Rattle.std.specs.List.{list_all};
ghost use Rattle.serde_json.specs.View.{view};
ghost use Rattle.usp_jws.specs.Letters.{is_identity};
ghost use Rattle.usp_uri.specs.Origin.{origin_of, origin_text};
ghost use Rattle.usp_conf.specs.Answers.{Gives};
ghost use Rattle.usp_conf.specs.Routes.{begins_with_slash, is_ascii, is_prefix, prefix_of, scheme_of, place_value, authority_value, authority_of, place_of, audience_of, route_in, routes_value, routes_of};
ghost use Rattle.usp_issue.specs.declared.limits.TheConstants.{MAX_ROUTES};
ghost use Rattle.usp_conf.specs.declared.limits.TheConstants.{MAX_PREFIX};

use crate::keys::key_in;
use crate::lists::{Element, need_object, rows_of};
use crate::texts::{identity_of, optional, required, tested, text_of};
use crate::{ConfFault, MAX_PREFIX, Member};
use serde_json::Value;
use std::alloc::Global;
use usp_base::Rows;
use usp_issue::{MAX_ROUTES, Route};
use usp_json::Text;
use usp_uri::Place;

fn begins_with_slash(text: &[u8]) -> bool
    ensures { result ≡ begins_with_slash text.now }
{
    match text {
        [] => false,
        [first, ..] => *first == b'/',
    }
}

fn is_ascii(text: &[u8]) -> bool
    ensures { result ≡ is_ascii text.now }
{
    text.iter().all(|b| b.is_ascii())
}

// Whether a text may be the front of a path: at most `MAX_PREFIX` bytes of ASCII, of which the first is `/`.
fn is_prefix(text: &[u8]) -> bool
    ensures { result ≡ is_prefix text.now }
{
    begins_with_slash(text) && text.len() <= MAX_PREFIX && is_ascii(text)
}

fn prefix_of(alloc: Global, object: &Value) -> Result<Text, ConfFault>
    ensures { Gives result (prefix_of (view object.now)) }
{
    let member = Member::Prefix;
    let prefix = text_of(alloc, member, required(object, member)?)?;
    tested(member, is_prefix(prefix.text().as_bytes()))?;
    Ok(prefix)
}

// A route's scheme has no range of its own: it must make a place.
fn scheme_of(alloc: Global, object: &Value) -> Result<Text, ConfFault>
    ensures { Gives result (scheme_of (view object.now)) }
{
    let member = Member::Scheme;
    text_of(alloc, member, required(object, member)?)
}

fn place_value(alloc: Global, scheme: &Text, authority: &Text) -> Result<Place, ConfFault>
    ensures { Gives result (place_value (origin_of (origin_text scheme.now authority.now))) }
{
    match Place::new(alloc, scheme.text().as_bytes(), authority.text().as_bytes()) {
        Ok(place) => Ok(place),
        Err(fault) if fault.is_memory() => Err(ConfFault::NoMemory),
        Err(_) => Err(ConfFault::Range {
            member: Member::Authority,
        }),
    }
}

fn authority_value(alloc: Global, scheme: &Text, value: &Value) -> Result<Place, ConfFault>
    ensures { Gives result (authority_value scheme.now (view value.now)) }
{
    let authority = text_of(alloc, Member::Authority, value)?;
    place_value(alloc, scheme, &authority)
}

fn authority_of(alloc: Global, scheme: &Text, object: &Value) -> Result<Place, ConfFault>
    ensures { Gives result (authority_of scheme.now (view object.now)) }
{
    authority_value(alloc, scheme, required(object, Member::Authority)?)
}

fn place_of(alloc: Global, object: &Value) -> Result<Place, ConfFault>
    ensures { Gives result (place_of (view object.now)) }
{
    let scheme = scheme_of(alloc, object)?;
    authority_of(alloc, &scheme, object)
}

fn audience_of(alloc: Global, object: &Value) -> Result<Text, ConfFault>
    ensures read { Gives result (audience_of (view object.now)) }
    ensures identity { IfOk result (λ audience. is_identity audience ≡ true) }
{
    let member = Member::Audience;
    identity_of(alloc, member, required(object, member)?)
}

fn route_in(alloc: Global, object: &Value) -> Result<Route, ConfFault>
    ensures { Gives result (route_in (view object.now)) }
{
    let prefix = prefix_of(alloc, object)?;
    let place = place_of(alloc, object)?;
    let key = key_in(alloc, object)?;
    let audience = audience_of(alloc, object)?;
    Ok(Route::new(prefix, place, key, audience))
}

impl Element for Route {
    ghost use Rattle.usp_conf.specs.Routes.{route_in};
    ghost use Rattle.usp_conf.specs.Lists.{object_of};

    ghost element_of = { λ list. object_of list route_in };

    fn read(alloc: Global, list: Member, value: &Value) -> Result<Route, ConfFault> {
        need_object(list, value)?;
        route_in(alloc, value)
    }
}

fn routes_value(alloc: Global, value: &Value) -> Result<Rows<Route>, ConfFault>
    ensures read { Gives result (routes_value (view value.now)) }
    ensures few { IfOk result (λ routes. length routes ≤ MAX_ROUTES) }
{
    let listed = rows_of(alloc, Member::Routes, 0, MAX_ROUTES, value)?;
    Ok(Rows::of(listed.into_vec()))
}

pub(crate) fn routes_of(alloc: Global, object: &Value) -> Result<Rows<Route>, ConfFault>
    ensures read { Gives result (routes_of (view object.now)) }
    ensures few { IfOk result (λ routes. length routes ≤ MAX_ROUTES) }
{
    match optional(object, Member::Routes) {
        None => Ok(Rows::of(Vec::new(alloc))),
        Some(value) => routes_value(alloc, value),
    }
}
