//! The input: read to its end, and within its limits.
ghost use Rattle.std.specs.Prelude.{◌≡◌, ◌≤◌, true, length, IfOk, IsErrOf};
ghost use Rattle.std.specs.Io.KnownBytes.{prepend_known, IsAtEnd};
ghost use Rattle.std.specs.List.{list_any};
ghost use Rattle.usp_base.specs.Lines.{lines_of};
ghost use Rattle.usp_base.specs.Outside.{HasCause};
ghost use Rattle.usp_tool.specs.Input.{is_long_input, is_long_line};

use crate::limits::{MAX_INPUT, MAX_LINE};
use std::alloc::Global;
use usp_base::{LoadFault, Source, first_line};

/// The bytes of a source up to its end, or more than `most` of them.
pub fn read_up_to<S: Source>(
    alloc: Global,
    source: &mut S,
    most: usize,
) -> Result<Vec<u8>, LoadFault>
    ensures taken { IfOk result (λ bytes.
        S.left source.old ≡ prepend_known bytes.items (S.left source.new)) }
    ensures over { IfOk result (λ bytes. length bytes.items ≤ most
        → (S.ended source.new ≡ true) × IsAtEnd (S.left source.new)) }
    ensures cause { HasCause (S.read_count source.old) (S.read_count source.new)
        (IsErrOf result LoadFault.Failed) }
{
    let mut bytes = Vec::new(alloc);
    let mut buffer = [0u8; 4096];
    'reading: while bytes.len() <= most {
        let n = source.read(&mut buffer)?;
        if n == 0 {
            return Ok(bytes);
        }
        bytes.extend_from_slice(&buffer[..n])?;
    }
    Ok(bytes)
}

fn has_long_line(input: &[u8]) -> bool
    ensures { result ≡ list_any is_long_line (lines_of input.now) }
{
    let mut rest = input;
    while !rest.is_empty() {
        let (line, more) = first_line(rest);
        if line.len() > MAX_LINE {
            return true;
        }
        rest = more;
    }
    false
}

/// Whether the input is too long, or has too long a line.
pub fn is_long_input(input: &[u8]) -> bool
    ensures { result ≡ is_long_input input.now }
{
    input.len() > MAX_INPUT || has_long_line(input)
}
