//! The claims that must be understood.
ghost use Rattle.std.specs.Prelude.{◌≡◌, ◌<◌, ◌==◌, IfOk, count_by, false, map};
ghost use Rattle.std.specs.List.{slice_split};
ghost use Rattle.std.specs.Option.{option_copied, unwrap_or};
ghost use Rattle.usp_base.specs.Blanks.{trim_blanks};
ghost use Rattle.usp_base.specs.declared.limits.TheConstants.{MOMENT_BOUND};
ghost use Rattle.usp_claims.specs.Table.{claim};
ghost use Rattle.usp_ext.specs.Listed.{means_of};
ghost use Rattle.usp_rules.specs.Critical.{are_understood, comma, is_standard, is_understood, names_in, passes_test, stands_once};

use crate::NoMemory;
use std::alloc::Global;
use usp_base::trim_blanks;
use usp_claims::{Claims, ROWS};
use usp_ext::{Extensions, Facts, Kit};
use usp_json::Json;

/// What the names of a list are asked of: the tests, and the claims of the token.
#[derive(Clone, Copy)]
pub struct Critical<'a> {
    pub kit: &'a Kit,
    pub extensions: &'a Extensions,
    pub facts: Facts<'a>,
    pub claims: &'a Claims,
}

// The parts of a list between its commas.
fn parts_of(alloc: Global, text: &[u8]) -> Result<Vec<&[u8]>, NoMemory>
    ensures { IfOk result (λ parts.
        map (λ part. part.now) parts.items ≡ slice_split (λ b. b == comma) text.now) }
{
    Ok(text.split(|b| *b == b',').collect(alloc)?)
}

fn stands_once(name: &[u8], parts: &[&[u8]]) -> bool
    ensures { result ≡ stands_once name.now (map (λ part. trim_blanks part.now) parts.now) }
{
    parts
        .iter()
        .filter(|part| name == trim_blanks(**part))
        .count()
        == 1
}

fn is_standard(name: &[u8]) -> bool
    ensures { result ≡ is_standard name.now }
{
    ROWS.iter().any(|row| row.name.name().as_bytes() == name)
}

fn passes_test(critical: &Critical<'_>, name: &[u8], value: Option<&Json>) -> bool
    requires { critical.now.facts.moment < MOMENT_BOUND }
    ensures { result ≡
        passes_test critical.now.extensions.now critical.now.facts.path.now name.now
        (option_copied value.entry) }
{
    match value {
        None => false,
        Some(value) => critical
            .extensions
            .holds(critical.kit, name, value, &critical.facts)
            .unwrap_or(false),
    }
}

fn is_understood(critical: &Critical<'_>, parts: &[&[u8]], name: &[u8]) -> bool
    requires { critical.now.facts.moment < MOMENT_BOUND }
    ensures { result ≡ is_understood critical.now.extensions.now critical.now.facts.path.now
        critical.now.claims.now (map (λ part. trim_blanks part.now) parts.now) name.now }
{
    !name.is_empty()
        && stands_once(name, parts)
        && !is_standard(name)
        && passes_test(critical, name, critical.claims.value(name))
}

fn are_all_understood(critical: &Critical<'_>, parts: &[&[u8]]) -> bool
    requires { critical.now.facts.moment < MOMENT_BOUND }
    ensures { result ≡ are_understood critical.now.extensions.now critical.now.facts.path.now
        critical.now.claims.now (map (λ part. trim_blanks part.now) parts.now) }
{
    for i in 0..parts.len() {
        if !is_understood(critical, parts, trim_blanks(parts[i])) {
            return false;
        }
    }
    true
}

/// Whether each name in the text of a `cdnicrit` is understood.
pub fn are_understood(alloc: Global, critical: &Critical<'_>, text: &[u8]) -> Result<bool, NoMemory>
    requires { critical.now.facts.moment < MOMENT_BOUND }
    ensures { IfOk result (λ met. met
        ≡ are_understood critical.now.extensions.now critical.now.facts.path.now
        critical.now.claims.now (names_in text.now)) }
{
    let parts = parts_of(alloc, text)?;
    Ok(are_all_understood(critical, &parts))
}
