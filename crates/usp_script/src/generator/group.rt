//! The groups of a generated script, of ten rounds of one ask each.
ghost use Rattle.std.specs.Prelude.{◌≡◌, ◌+◌, ◌*◌, ◌<◌, ◌≤◌, [], ◌∷◌, ◌++◌, IfOk, OnOk};
ghost use Rattle.usp_script.specs.Generator.{ask_round, grant_token, list_uri, provider_key, rounds_of, target_uri};
ghost use Rattle.usp_script.specs.declared.ask.Carried.TheVariants.{InCookie, InQuery, Nothing};
ghost use Rattle.usp_script.specs.declared.ask.Label.TheVariants.{Granted, Issued};
ghost use Rattle.usp_script.specs.declared.limits.TheConstants.{MAX_GROUPS};

use super::grant::grant_token;
use super::uris::{list_uri, segment_uri, sent_uri, target_uri};
use crate::{Carried, LabAsk, Label, NoMemory, Round};
use std::alloc::Global;
use usp_base::Rows;
use usp_jws::{Key, Token};
use usp_uri::Uri;

// A round of one ask.
fn round_of(alloc: Global, grants: Vec<Token>, ask: LabAsk) -> Result<Round, NoMemory>
    ensures { IfOk result (λ round. round ≡ record { grants = grants.items; asks = ask ∷ [] }) }
{
    let mut asks = Vec::new(alloc);
    asks.push(ask)?;
    Ok(Round {
        grants: Rows::of(grants),
        asks: Rows::of(asks),
    })
}

// The moment of the first ask of a group.
fn moment_of(group: u64) -> u64
    requires { group < MAX_GROUPS }
    ensures { result ≡ 1000 + 100 * group }
{
    1000 + 100 * group
}

// What the ask of that number in the group issued.
fn issued(group: u64, number: u32) -> Label
    requires group { group < MAX_GROUPS }
    requires number { number ≤ 10 }
    ensures { result ≡ Issued (10 * group + number) }
{
    Label::Issued(10 * group as u32 + number)
}

// The first ask brings the grant.
fn first_round(alloc: Global, key: &Key, group: u64) -> Result<Round, NoMemory>
    requires key { key.now ≡ provider_key }
    requires group { group < MAX_GROUPS }
    ensures { IfOk result (λ round. round ≡ ask_round (grant_token group (1000 + 100 * group) ∷ []) 0
        (1000 + 100 * group) list_uri (InQuery (Granted (group + 1)))) }
{
    let moment = moment_of(group);
    let mut grants = Vec::new(alloc);
    grants.push(grant_token(alloc, key, group, moment)?)?;
    let uri = list_uri(alloc)?;
    let carried = Carried::InQuery(Label::Granted(group as u32 + 1));
    let ask = LabAsk {
        edge: 0,
        moment,
        uri,
        carried,
    };
    round_of(alloc, grants, ask)
}

// The ask behind that number of asks of the group brings what the one before it issued, in a cookie.
fn next_round(alloc: Global, group: u64, number: u32, uri: Uri) -> Result<Round, NoMemory>
    requires group { group < MAX_GROUPS }
    requires number { number ≤ 10 }
    ensures { IfOk result (λ round. round ≡ ask_round [] 0 (1000 + 100 * group + 5 * number) uri
        (InCookie (Issued (10 * group + number)))) }
{
    let ask = LabAsk {
        edge: 0,
        moment: moment_of(group) + 5 * u64::from(number),
        uri,
        carried: Carried::InCookie(issued(group, number)),
    };
    round_of(alloc, Vec::new(alloc), ask)
}

// The ask of the second edge, so many seconds behind the group's first ask.
fn target_round(alloc: Global, group: u64, seconds: u64) -> Result<Round, NoMemory>
    requires group { group < MAX_GROUPS }
    requires seconds { seconds ≤ 100 }
    ensures { IfOk result (λ round. round ≡ ask_round [] 1 (1000 + 100 * group + seconds) target_uri
        (InQuery (Issued (10 * group + 7)))) }
{
    let ask = LabAsk {
        edge: 1,
        moment: moment_of(group) + seconds,
        uri: target_uri(alloc)?,
        carried: Carried::InQuery(issued(group, 7)),
    };
    round_of(alloc, Vec::new(alloc), ask)
}

// The last ask brings no token.
fn last_round(alloc: Global, group: u64) -> Result<Round, NoMemory>
    requires { group < MAX_GROUPS }
    ensures { IfOk result (λ round. round ≡ ask_round [] 0 (1000 + 100 * group + 40) list_uri Nothing) }
{
    let ask = LabAsk {
        edge: 0,
        moment: moment_of(group) + 40,
        uri: list_uri(alloc)?,
        carried: Carried::Nothing,
    };
    round_of(alloc, Vec::new(alloc), ask)
}

/// Puts the rounds of a group behind those before it.
pub fn push_group(
    alloc: Global,
    key: &Key,
    group: u64,
    rounds: &mut Vec<Round>,
) -> Result<(), NoMemory>
    requires key { key.now ≡ provider_key }
    requires group { group < MAX_GROUPS }
    ensures { OnOk result (rounds.new.items ≡ rounds.old.items ++ rounds_of group) }
{
    rounds.push(first_round(alloc, key, group)?)?;
    rounds.push(next_round(alloc, group, 1, segment_uri(alloc, 1)?)?)?;
    rounds.push(next_round(alloc, group, 2, segment_uri(alloc, 2)?)?)?;
    rounds.push(next_round(alloc, group, 3, segment_uri(alloc, 3)?)?)?;
    rounds.push(next_round(alloc, group, 4, segment_uri(alloc, 4)?)?)?;
    rounds.push(next_round(alloc, group, 5, segment_uri(alloc, 5)?)?)?;
    rounds.push(next_round(alloc, group, 6, sent_uri(alloc)?)?)?;
    rounds.push(target_round(alloc, group, 35)?)?;
    rounds.push(target_round(alloc, group, 36)?)?;
    rounds.push(last_round(alloc, group)?)?;
    Ok(())
}
