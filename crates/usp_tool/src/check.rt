//! The command `check`: judges the lines of an input.
mod line;
#[cfg(test)]
mod tests;
mod verdict;

ghost use Rattle.std.specs.Prelude.{◌≤◌, IfOk, length};
ghost use Rattle.usp_tool.specs.Check.{IsChecked};
ghost use Rattle.usp_base.specs.Lines.{lines_of};
ghost use Rattle.usp_tool.specs.Outcome.{IsOwn};
ghost use Rattle.usp_tool.specs.declared.limits.TheConstants.{MAX_INPUT};

use crate::memory::NoMemory;
use crate::output::{Outcome, push_line_refusal};
use line::ask_of;
use std::alloc::Global;
use usp_base::{Status, first_line};
use usp_conf::Conf;
use usp_ext::Kit;
use usp_nonce::NonceTable;
use verdict::{decide, push_verdict, status_with};

/// Judges the lines of an input, in their order, with one nonce table.
pub fn check(alloc: Global, kit: &Kit, conf: &Conf, input: &[u8]) -> Result<Outcome, NoMemory>
    requires { length input.now ≤ MAX_INPUT }
    ensures checked { IfOk result (λ outcome. IsChecked conf.now (lines_of input.now) outcome) }
    ensures own { IfOk result (λ outcome. IsOwn outcome.status) }
{
    let mut table = NonceTable::with_room(alloc, conf.room())?;
    let profile = conf.site().profile();
    let mut text = Vec::new(alloc);
    let mut status = Status::Done;
    let mut number = 1;
    let mut rest = input;
    while !rest.is_empty() {
        let (line, more) = first_line(rest);
        let Some(ask) = ask_of(line) else {
            push_line_refusal(alloc, &mut text, number)?;
            return Ok(Outcome::new(text, Status::Refused));
        };
        let verdict = decide(alloc, kit, profile, &mut table, &ask)?;
        push_verdict(alloc, &mut text, number, &verdict)?;
        status = status_with(&verdict, status);
        number += 1;
        rest = more;
    }
    Ok(Outcome::new(text, status))
}
