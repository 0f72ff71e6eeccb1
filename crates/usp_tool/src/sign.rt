//! The command `sign`: makes signed URIs of the lines of an input.
mod line;
#[cfg(test)]
mod tests;

ghost use Rattle.std.specs.Prelude.{◌≤◌, IfOk, length};
ghost use Rattle.usp_base.specs.Lines.{lines_of};
ghost use Rattle.usp_tool.specs.Outcome.{IsOwn};
ghost use Rattle.usp_tool.specs.Sign.{SignsAll};
ghost use Rattle.usp_tool.specs.declared.limits.TheConstants.{MAX_INPUT};

use crate::memory::NoMemory;
use crate::output::{Outcome, push_line_refusal};
use line::sign_line;
use std::alloc::Global;
use usp_base::{Status, first_line};
use usp_jws::Key;
use usp_package::AttrName;

/// Signs the lines of an input, in their order.
pub fn sign(
    alloc: Global,
    attribute: &AttrName,
    key: &Key,
    input: &[u8],
) -> Result<Outcome, NoMemory>
    requires { length input.now ≤ MAX_INPUT }
    ensures signed { IfOk result (λ outcome.
        SignsAll attribute.now key.now 1 (lines_of input.now) outcome) }
    ensures own { IfOk result (λ outcome. IsOwn outcome.status) }
{
    let mut text = Vec::new(alloc);
    let mut number = 1;
    let mut rest = input;
    while !rest.is_empty() {
        let (line, more) = first_line(rest);
        let Some(signed) = sign_line(alloc, attribute, key, line)? else {
            push_line_refusal(alloc, &mut text, number)?;
            return Ok(Outcome::new(text, Status::Refused));
        };
        text.extend_from_slice(&signed)?;
        text.push(b'\n')?;
        number += 1;
        rest = more;
    }
    Ok(Outcome::new(text, Status::Done))
}
