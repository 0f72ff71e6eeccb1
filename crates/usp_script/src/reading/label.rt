//! Labels, which name tokens.
ghost use Rattle.std.specs.Prelude.{◌≡◌, ◌≤◌, List, ℕ, MatchOption};
ghost use Rattle.std.specs.Fmt.{decimal};
ghost use Rattle.usp_script.specs.Reading.{IsLabel};
ghost use Rattle.usp_script.specs.declared.ask.Label.{Label};

use crate::Label;
use crate::draft::Draft;
use usp_base::read_number;

// The number that a text spells, from 1 to `most`. None exactly where there is none.
fn number_in(text: &[u8], most: u32) -> Option<u32>
    ensures { MatchOption result
        ((number : ℕ) → text.now ≡ decimal number → 1 ≤ number → number ≤ most → ⊥)
        (λ number. (text.now ≡ decimal number) × (1 ≤ number) × (number ≤ most)) }
{
    let number = read_number(text, most as u64)?;
    if number == 0 {
        return None;
    }
    Some(number as u32)
}

/// The label that a text is, of a token that may be named. None exactly where it is none.
pub fn label_in(draft: &Draft, text: &[u8]) -> Option<Label>
    ensures { MatchOption result
        ((label : Label) → IsLabel draft.now text.now label → ⊥)
        (λ label. IsLabel draft.now text.now label) }
{
    let (kind, digits) = text.split_first()?;
    match *kind {
        b'g' => Some(Label::Granted(number_in(digits, draft.granted())?)),
        b'x' => Some(Label::Outside(number_in(digits, draft.outside())?)),
        b'i' => Some(Label::Issued(number_in(digits, draft.issued())?)),
        _ => None,
    }
}
