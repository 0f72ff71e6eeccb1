//! The script that is made of a number.
ghost use Rattle.std.specs.Prelude.{◌≡◌, ◌≤◌, IfOk};
ghost use Rattle.usp_script.specs.Generator.{IsGenerated, groups_from};
ghost use Rattle.usp_script.specs.declared.limits.TheConstants.{MAX_GROUPS};

mod edges;
mod grant;
mod group;
#[cfg(test)]
mod tests;
mod uris;

use crate::{NoMemory, Round, Script};
use edges::edges;
use grant::provider_key;
use group::push_group;
use std::alloc::Global;
use uris::objects;
use usp_base::Rows;

// The rounds of so many groups.
fn rounds(alloc: Global, groups: u64) -> Result<Vec<Round>, NoMemory>
    requires { groups ≤ MAX_GROUPS }
    ensures { IfOk result (λ rounds. rounds.items ≡ groups_from 0 groups) }
{
    let key = provider_key(alloc)?;
    let mut rounds = Vec::new(alloc);
    for group in 0..groups {
        push_group(alloc, &key, group, &mut rounds)?;
    }
    Ok(rounds)
}

/// The script of so many groups over two edges. In each group a viewer brings the provider's grant, then plays five
/// segments and a redirected one by what the asks before issued; the last token is brought twice, and the group ends
/// with an ask that brings none.
pub fn generated(alloc: Global, groups: u64) -> Result<Script, NoMemory>
    requires { (1 ≤ groups) × (groups ≤ MAX_GROUPS) }
    ensures { IfOk result (λ script. IsGenerated groups script) }
{
    let edges = edges(alloc)?;
    let objects = objects(alloc)?;
    let rounds = rounds(alloc, groups)?;
    Ok(Script::new(
        Rows::of(edges),
        Rows::of(objects),
        Rows::of(Vec::new(alloc)),
        Rows::of(rounds),
    ))
}
