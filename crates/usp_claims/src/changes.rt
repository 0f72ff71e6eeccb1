//! One claim changed.

ghost use Rattle.std.specs.Prelude.{◌≡◌, None, OnOk, OnErr};
ghost use Rattle.usp_json.specs.Entries.{IsPaired};
ghost use Rattle.usp_claims.specs.Changes.{with_claim};
ghost use Rattle.usp_claims.specs.Table.{claim, name_of};

use crate::{ClaimName, NoMemory};
use std::alloc::Global;
use usp_json::{Json, Members, Text};

// Gives a claim that value.
#[tactic(auto, using(crate::proofs::Changed::no_value))]
pub(crate) fn change(
    alloc: Global,
    members: &mut Members,
    name: ClaimName,
    value: Json,
) -> Result<(), NoMemory>
    requires { IsPaired members.old }
    ensures changed { OnOk result (members.new ≡ with_claim name value members.old) }
    ensures unchanged { OnErr result (members.new ≡ members.old) }
    ensures memory { OnErr result (claim (name_of name) members.old ≡ None) }
{
    match members.place(name.name().as_bytes()) {
        Some(place) => members.set(place, value),
        None => {
            let text = Text::of(alloc, name.name())?;
            members.push(text, value)?;
        }
    }
    Ok(())
}
