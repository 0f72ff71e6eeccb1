//! The rows, in the order in which they are tried.
ghost use Rattle.std.specs.Prelude.{◌≡◌, IfOk, IfErr, IsUtf8, Some};
ghost use Rattle.serde_json.specs.Read.{read};
ghost use Rattle.serde_json.specs.View.{view};
ghost use Rattle.usp_conf.specs.Answers.{Gives};
ghost use Rattle.usp_conf.specs.Conf.{conf_of};
ghost use Rattle.usp_conf.specs.Readings.{Configures, RefusesConf, RefusesText};

use crate::claims::extensions_of;
use crate::keys::{keys_of, sign_of};
use crate::lists::identities_of;
use crate::routes::routes_of;
use crate::texts::{attribute_of, edge_of, enforce_of, room_of, scheme_of};
use crate::{Conf, ConfFault, Member};
use serde_json::Value;
use std::alloc::Global;
use usp_issue::Site;
use usp_rules::Profile;

fn conf_of(alloc: Global, object: &Value) -> Result<Conf, ConfFault>
    ensures { Gives result (conf_of (view object.now)) }
{
    let edge = edge_of(alloc, object)?;
    let scheme = scheme_of(alloc, object)?;
    let attribute = attribute_of(alloc, object)?;
    let ring = keys_of(alloc, object)?;
    let issuers = identities_of(alloc, Member::Issuers, object)?;
    let audience = identities_of(alloc, Member::Audience, object)?;
    let sign = sign_of(alloc, &ring, issuers.rows(), object)?;
    let room = room_of(object)?;
    let extensions = extensions_of(alloc, object)?;
    let routes = routes_of(alloc, object)?;
    enforce_of(object)?;
    let profile = Profile {
        ring,
        issuers,
        audience,
        attribute,
        extensions,
    };
    Ok(Conf::new(edge, scheme, room, Site::new(profile, sign, routes)))
}

// The reading of a text as JSON.
fn value_of(alloc: Global, text: &[u8]) -> Result<Value, ConfFault>
    ensures read { IfOk result (λ value. IsUtf8 text.now × (read text.now ≡ Some (view value))) }
    ensures refused { IfErr result (λ e. RefusesText e text.now) }
{
    match Value::from_slice(alloc, text) {
        Ok(value) => Ok(value),
        Err(e) if e.is_memory() => Err(ConfFault::NoMemory),
        Err(_) => Err(ConfFault::Json),
    }
}

/// Reads a configuration: one JSON object, whose rows are tried in their order. Members of other names
/// are ignored; of equal names the last counts.
///
/// # Errors
///
/// The fault of the first row that fails; `Json` where the text is no JSON.
#[tactic(auto, using(crate::proofs::Whole::no_reading, crate::proofs::Whole::failing, crate::proofs::Whole::reads))]
pub fn read_conf(alloc: Global, text: &[u8]) -> Result<Conf, ConfFault>
    ensures ok { IfOk result (λ conf. Configures text.now conf) }
    ensures refused { IfErr result (λ fault. RefusesConf fault text.now) }
{
    let value = value_of(alloc, text)?;
    conf_of(alloc, &value)
}
