//! Texts cut into lines.
ghost use Rattle.std.specs.Prelude.{◌≡◌, ◌<◌, ◌∷◌, length};
ghost use Rattle.usp_base.specs.Lines.{lines_of};

use crate::cuts::{cut_at, without_end};

/// The first line without its end, which is LF or CR LF, and what stands behind that end.
#[tactic(auto, using(crate::proofs::Cutting::first_cut))]
pub fn first_line(text: &[u8]) -> (&[u8], &[u8])
    requires { 0 < length text.now }
    ensures lines { lines_of text.now ≡ result.0.now ∷ lines_of result.1.now }
    ensures shorter { length result.1.now < length text.now }
{
    match cut_at(text, b'\n') {
        None => (text, &[]),
        Some((line, more)) => (without_end(line, b'\r'), more),
    }
}
