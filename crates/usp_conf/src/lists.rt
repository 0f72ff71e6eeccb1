//! Members that are lists.
ghost use Rattle.std.specs.Prelude.{◌≡◌, ◌≤◌, true, false, length, [], IfOk, IfErr, OnOk};
ghost use Rattle.std.specs.Option.{is_some};
ghost use Rattle.serde_json.specs.Find.{as_object};
ghost use Rattle.serde_json.specs.View.{view, items_view};
ghost use Rattle.usp_conf.specs.Answers.{Gives};
ghost use Rattle.usp_conf.specs.Lists.{each, has_length, rows_of, identities_of};
ghost use Rattle.usp_conf.specs.Texts.{identity_of};
ghost use Rattle.usp_conf.specs.declared.fault.ConfFault.TheVariants as fault;
ghost use Rattle.usp_conf.specs.declared.limits.TheConstants.{MAX_IDENTITIES};

use crate::texts::{identity_of, optional};
use crate::{ConfFault, MAX_IDENTITIES, Member};
use serde_json::Value;
use std::alloc::Global;
use std::marker::Model;
use usp_base::Rows;
use usp_json::Text;

// The elements of a list, which contracts see as that list. Unlike `usp_base::Rows` it can be taken apart.
#[derive(Drop)]
pub(crate) struct Listed<T> {
    rows: Vec<T>,
}

impl<T> Model for Listed<T> {
    ghost use Rattle.std.specs.Prelude.{List};

    ghost Value = { List T };

    ghost view = { λ l. l.rows.items };
}

impl<T> Listed<T> {
    fn of(rows: Vec<T>) -> Listed<T>
        ensures { result ≡ rows.items }
    {
        Listed { rows }
    }

    pub(crate) fn into_vec(self) -> Vec<T>
        ensures { result.items ≡ self }
    {
        self.rows
    }
}

// What a list may have as its elements.
pub(crate) trait Element: Drop {
    ghost use Rattle.std.specs.Prelude.{Result};
    ghost use Rattle.serde_json.specs.Data.{Data};
    ghost use Rattle.serde_json.specs.View.{view};
    ghost use Rattle.usp_conf.specs.Answers.{Gives};
    ghost use Rattle.usp_conf.specs.declared.fault.ConfFault.{ConfFault};
    ghost use Rattle.usp_conf.specs.declared.member.Member.{Member};

    ghost element_of: { Member → Data → Result Self ConfFault };

    // The element that a value is, in the list of that name.
    fn read(alloc: Global, list: Member, value: &Value) -> Result<Self, ConfFault>
        ensures { Gives result (element_of list (view value.now)) };
}

impl Element for Text {
    ghost use Rattle.usp_conf.specs.Texts.{identity_of};

    ghost element_of = { identity_of };

    fn read(alloc: Global, list: Member, value: &Value) -> Result<Text, ConfFault> {
        identity_of(alloc, list, value)
    }
}

// Refuses an element of a list that is no object.
pub(crate) fn need_object(list: Member, value: &Value) -> Result<(), ConfFault>
    ensures object { OnOk result (is_some (as_object (view value.now)) ≡ true) }
    ensures other { IfErr result (λ e.
        (is_some (as_object (view value.now)) ≡ false) × (e ≡ fault.Kind list)) }
{
    if value.is_object() {
        Ok(())
    } else {
        Err(ConfFault::Kind { member: list })
    }
}

// The elements, one whole element after the other.
pub(crate) fn elements<E: Element>(
    alloc: Global,
    list: Member,
    values: &[Value],
) -> Result<Listed<E>, ConfFault>
    ensures read { Gives result (each (E.element_of list) (items_view values.now)) }
    ensures length { IfOk result (λ rows. length rows ≡ length values.now) }
{
    let mut rows = Vec::new(alloc);
    for value in values {
        let row = E::read(alloc, list, value)?;
        rows.push(row)?;
    }
    Ok(Listed::of(rows))
}

#[tactic(auto, using(crate::proofs::Each::count_is))]
fn has_length(values: &[Value], least: usize, most: usize) -> bool
    ensures value { result ≡ has_length least most (items_view values.now) }
    ensures bounds { result ≡ true → (least ≤ length values.now) × (length values.now ≤ most) }
{
    least <= values.len() && values.len() <= most
}

// A list of so many elements; its length is tried before its elements.
pub(crate) fn rows_of<E: Element>(
    alloc: Global,
    list: Member,
    least: usize,
    most: usize,
    value: &Value,
) -> Result<Listed<E>, ConfFault>
    ensures read { Gives result (rows_of list least most (E.element_of list) (view value.now)) }
    ensures bounds { IfOk result (λ rows. (least ≤ length rows) × (length rows ≤ most)) }
{
    match value.as_array() {
        None => Err(ConfFault::Kind { member: list }),
        Some(values) => {
            if has_length(values, least, most) {
                elements(alloc, list, values)
            } else {
                Err(ConfFault::Range { member: list })
            }
        }
    }
}

fn identities_value(alloc: Global, list: Member, value: &Value) -> Result<Rows<Text>, ConfFault>
    ensures { Gives result (rows_of list 0 MAX_IDENTITIES (identity_of list) (view value.now)) }
{
    let listed = rows_of(alloc, list, 0, MAX_IDENTITIES, value)?;
    Ok(Rows::of(listed.into_vec()))
}

// A list of at most `MAX_IDENTITIES` identities, none where there is no such member.
pub(crate) fn identities_of(
    alloc: Global,
    list: Member,
    object: &Value,
) -> Result<Rows<Text>, ConfFault>
    ensures { Gives result (identities_of list (view object.now)) }
{
    match optional(object, list) {
        None => Ok(Rows::of(Vec::new(alloc))),
        Some(value) => identities_value(alloc, list, value),
    }
}
