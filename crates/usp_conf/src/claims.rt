//! Extensions: claims with their tests.
ghost use Rattle.std.specs.Prelude.{◌≡◌, ◌==◌, true, false, take, drop, length, [], IfOk, IfErr};
ghost use Rattle.std.specs.List.{list_any};
ghost use Rattle.std.specs.Str.{bytes_eq};
ghost use Rattle.serde_json.specs.View.{view, items_view};
ghost use Rattle.usp_conf.specs.Answers.{Gives};
ghost use Rattle.usp_conf.specs.Claims.{has_row, is_free, claim_of, kind_named, kind_value, kind_of, test_of, nothing_of, words_of, texts_of, several_of, most_of, setting_value, setting_of, extension_in, distinct_extensions, extensions_value, extensions_of};

use crate::lists::{Element, Listed, need_object, rows_of};
use crate::texts::{number_of, optional, required, tested, text_of};
use crate::{ConfFault, MAX_EXTENSIONS, Member};
use serde_json::Value;
use std::alloc::Global;
use usp_claims::{MAX_NUMBER, ROWS, Row};
use usp_ext::{ExtFault, Extension, Extensions, Setting, TestKind};
use usp_json::{Items, Json, Text};

fn has_row(rows: &[Row], claim: &[u8]) -> bool
    ensures { result ≡ has_row rows.now claim.now }
{
    rows.iter().any(|row| row.name.name().as_bytes() == claim)
}

// Whether the claim is no row of the table of claims.
fn is_free(claim: &[u8]) -> bool
    ensures { result ≡ is_free claim.now }
{
    !has_row(&ROWS, claim)
}

fn claim_of(alloc: Global, object: &Value) -> Result<Text, ConfFault>
    ensures { Gives result (claim_of (view object.now)) }
{
    let member = Member::Claim;
    let claim = text_of(alloc, member, required(object, member)?)?;
    tested(member, is_free(claim.text().as_bytes()))?;
    Ok(claim)
}

// The test of that name.
fn kind_named(name: &[u8]) -> Option<TestKind>
    ensures { result ≡ kind_named name.now }
{
    if name == b"any".as_slice() {
        Some(TestKind::Any)
    } else if name == b"equals".as_slice() {
        Some(TestKind::Equals)
    } else if name == b"one_of".as_slice() {
        Some(TestKind::OneOf)
    } else if name == b"at_most".as_slice() {
        Some(TestKind::AtMost)
    } else if name == b"path_prefix".as_slice() {
        Some(TestKind::PathPrefix)
    } else {
        None
    }
}

fn kind_value(name: &[u8]) -> Result<TestKind, ConfFault>
    ensures { Gives result (kind_value name.now) }
{
    match kind_named(name) {
        None => Err(ConfFault::Range {
            member: Member::Test,
        }),
        Some(kind) => Ok(kind),
    }
}

fn kind_of(alloc: Global, value: &Value) -> Result<TestKind, ConfFault>
    ensures { Gives result (kind_of (view value.now)) }
{
    let name = text_of(alloc, Member::Test, value)?;
    kind_value(name.text().as_bytes())
}

fn test_of(alloc: Global, object: &Value) -> Result<TestKind, ConfFault>
    ensures { Gives result (test_of (view object.now)) }
{
    kind_of(alloc, required(object, Member::Test)?)
}

fn nothing_of(value: &Value) -> Result<Setting, ConfFault>
    ensures { Gives result (nothing_of (view value.now)) }
{
    match value.as_null() {
        None => Err(ConfFault::Kind {
            member: Member::Setting,
        }),
        Some(()) => Ok(Setting::Nothing),
    }
}

fn words_of(alloc: Global, value: &Value) -> Result<Setting, ConfFault>
    ensures { Gives result (words_of (view value.now)) }
{
    Ok(Setting::Words(text_of(alloc, Member::Setting, value)?))
}

// The texts of a list, as values of JSON.
fn texts_of(alloc: Global, values: &[Value]) -> Result<Items, ConfFault>
    ensures { Gives result (texts_of (items_view values.now)) }
{
    let mut items = Items::new(alloc);
    for value in values {
        items.push(Json::Str(text_of(alloc, Member::Setting, value)?))?;
    }
    Ok(items)
}

fn several_of(alloc: Global, value: &Value) -> Result<Setting, ConfFault>
    ensures { Gives result (several_of (view value.now)) }
{
    match value.as_array() {
        None => Err(ConfFault::Kind {
            member: Member::Setting,
        }),
        Some(values) => Ok(Setting::Several(texts_of(alloc, values)?)),
    }
}

fn most_of(value: &Value) -> Result<Setting, ConfFault>
    ensures { Gives result (most_of (view value.now)) }
{
    Ok(Setting::Number(number_of(Member::Setting, 0, MAX_NUMBER, value)?))
}

// The setting of a test, by its kind.
fn setting_value(alloc: Global, kind: TestKind, value: &Value) -> Result<Setting, ConfFault>
    ensures { Gives result (setting_value kind (view value.now)) }
{
    match kind {
        TestKind::Any | TestKind::PathPrefix => nothing_of(value),
        TestKind::Equals => words_of(alloc, value),
        TestKind::OneOf => several_of(alloc, value),
        TestKind::AtMost => most_of(value),
    }
}

fn setting_of(alloc: Global, kind: TestKind, object: &Value) -> Result<Setting, ConfFault>
    ensures { Gives result (setting_of kind (view object.now)) }
{
    setting_value(alloc, kind, required(object, Member::Setting)?)
}

fn extension_in(alloc: Global, object: &Value) -> Result<Extension, ConfFault>
    ensures { Gives result (extension_in (view object.now)) }
{
    let claim = claim_of(alloc, object)?;
    let kind = test_of(alloc, object)?;
    let setting = setting_of(alloc, kind, object)?;
    Ok(Extension {
        claim,
        kind,
        setting,
    })
}

impl Element for Extension {
    ghost use Rattle.usp_conf.specs.Claims.{extension_in};
    ghost use Rattle.usp_conf.specs.Lists.{object_of};

    ghost element_of = { λ list. object_of list extension_in };

    fn read(alloc: Global, list: Member, value: &Value) -> Result<Extension, ConfFault> {
        need_object(list, value)?;
        extension_in(alloc, value)
    }
}

// Extensions of which no two are of one claim.
fn distinct_extensions(alloc: Global, rows: Listed<Extension>) -> Result<Extensions, ConfFault>
    ensures { Gives result (distinct_extensions rows) }
{
    let mut extensions = Extensions::empty(alloc);
    for row in rows.into_vec() {
        match extensions.push(row.claim, row.kind, row.setting) {
            Ok(()) => {}
            Err(ExtFault::NoMemory) => return Err(ConfFault::NoMemory),
            Err(ExtFault::Repeat) => {
                return Err(ConfFault::Repeat {
                    member: Member::Claim,
                });
            }
        }
    }
    Ok(extensions)
}

fn extensions_value(alloc: Global, value: &Value) -> Result<Extensions, ConfFault>
    ensures { Gives result (extensions_value (view value.now)) }
{
    let rows = rows_of(alloc, Member::Extensions, 0, MAX_EXTENSIONS, value)?;
    distinct_extensions(alloc, rows)
}

pub(crate) fn extensions_of(alloc: Global, object: &Value) -> Result<Extensions, ConfFault>
    ensures { Gives result (extensions_of (view object.now)) }
{
    match optional(object, Member::Extensions) {
        None => Ok(Extensions::empty(alloc)),
        Some(value) => extensions_value(alloc, value),
    }
}
