//! Scripts, read from lines.
mod ask;
mod edge;
mod fields;
mod key;
mod label;
mod line;
mod object;
mod sealing;

ghost use Rattle.std.specs.Prelude.{◌≡◌, List, Ok, Err, IfOk, IsErrOf};
ghost use Rattle.usp_base.specs.Lines.{lines_of};
ghost use Rattle.usp_base.specs.Outside.{HasCause};
ghost use Rattle.usp_script.specs.Refused.{IfLine};
ghost use Rattle.usp_script.specs.Reading.{AreFiles, AsksInOrder, Loaded, Reads, Unloads};

use crate::draft::Draft;
use crate::{Script, ScriptFault};
use line::take_line;
use std::alloc::Global;
use usp_base::{Files, first_line};

/// The script that lines make, tried in their order. A line is one of these, its fields parted by one space, the last
/// with the rest of the line:
///
/// ```text
/// edge FILE
/// object EDGE URI TEXT
/// key KID ISSUER SECRET
/// grant KID CLAIMS
/// outside KID CLAIMS
/// ask EDGE MOMENT URI query LABEL
/// ask EDGE MOMENT URI cookie LABEL
/// ask EDGE MOMENT URI none
/// then
/// ```
///
/// The first three stand before all others, and edges before objects. FILE is the configuration of an edge, which is
/// named by its `edge`. A MOMENT is a number below [`usp_base::MOMENT_BOUND`]. A label is `g` and the number of a grant
/// above, `x` and that of an outside token above, or `i` and that of an ask of an earlier round. A URI is put in its
/// normal form; with `query` it must have no package. `then` ends a round.
///
/// # Errors
///
/// The number of the first line that is refused; `Unloaded` where a file could not be loaded and no line above its own
/// is refused.
pub fn read_script<F: Files>(
    alloc: Global,
    files: &mut F,
    input: &[u8],
) -> Result<Script, ScriptFault>
    ensures ok { IfOk result (λ script. (loads : List Loaded) × AreFiles (F.files files.old) loads
        × Reads (lines_of input.now) loads (Ok script)) }
    ensures refused { IfLine result (λ number. (loads : List Loaded)
        × AreFiles (F.files files.old) loads × Reads (lines_of input.now) loads (Err number)) }
    ensures unloaded { IsErrOf result ScriptFault.Unloaded
        → Unloads (F.files files.old) (lines_of input.now) (F.asked files.old) (F.asked files.new) }
    ensures same { F.files files.new ≡ F.files files.old }
    ensures asked { AsksInOrder (lines_of input.now) (F.asked files.old) (F.asked files.new) }
    ensures cause { HasCause (F.file_count files.old) (F.file_count files.new)
        (IsErrOf result ScriptFault.Unloaded) }
{
    let mut draft = Draft::new(alloc);
    let mut number = 1;
    let mut rest = input;
    while !rest.is_empty() {
        let (line, more) = first_line(rest);
        let Some(next) = take_line(alloc, files, draft, line)? else {
            return Err(ScriptFault::Line { number });
        };
        draft = next;
        number += 1;
        rest = more;
    }
    Ok(draft.into_script()?)
}
