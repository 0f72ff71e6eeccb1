//! Fields, which are parted by one space. The last takes the rest of its line.
ghost use Rattle.std.specs.Prelude.{◌≡◌, [], ◌∷◌, List, ℕ, Some, IfSome, IfNone};
ghost use Rattle.std.specs.Option.{option_copied, option_map};
ghost use Rattle.usp_script.specs.Fields.{behind};
ghost use Rattle.usp_script.specs.Reading.{fields};

use usp_base::cut_at;

// What stands behind a word that is the first of a line.
fn behind<'a>(line: &'a [u8], word: &[u8]) -> Option<&'a [u8]>
    ensures { option_copied result ≡ behind word.now line.now }
{
    let (first, rest) = cut_at(line, b' ')?;
    if first == word { Some(rest) } else { None }
}

fn two(line: &[u8]) -> Option<(&[u8], &[u8])>
    ensures { option_map (λ f. f.0.now ∷ f.1.now ∷ []) result ≡ fields 1 line.now }
{
    let (one, two) = cut_at(line, b' ')?;
    Some((one, two))
}

fn three(line: &[u8]) -> Option<(&[u8], &[u8], &[u8])>
    ensures { option_map (λ f. f.0.now ∷ f.1.now ∷ f.2.now ∷ []) result ≡ fields 2 line.now }
{
    let (one, rest) = cut_at(line, b' ')?;
    let (two, three) = two(rest)?;
    Some((one, two, three))
}

fn four(line: &[u8]) -> Option<(&[u8], &[u8], &[u8], &[u8])>
    ensures { option_map (λ f. f.0.now ∷ f.1.now ∷ f.2.now ∷ f.3.now ∷ []) result ≡ fields 3 line.now }
{
    let (one, rest) = cut_at(line, b' ')?;
    let (two, three, four) = three(rest)?;
    Some((one, two, three, four))
}

/// The field behind a word. None exactly where the line does not begin with the word and a space.
pub fn one_behind<'a>(line: &'a [u8], word: &[u8]) -> Option<&'a [u8]>
    ensures some { IfSome result (λ f. fields 1 line.now ≡ Some (word.now ∷ f.now ∷ [])) }
    ensures none { IfNone result ((a : List ℕ) → fields 1 line.now ≡ Some (word.now ∷ a ∷ []) → ⊥) }
{
    behind(line, word)
}

/// The two fields behind a word. None exactly where the line is no such line.
pub fn two_behind<'a>(line: &'a [u8], word: &[u8]) -> Option<(&'a [u8], &'a [u8])>
    ensures some { IfSome result (λ f. fields 2 line.now ≡ Some (word.now ∷ f.0.now ∷ f.1.now ∷ [])) }
    ensures none { IfNone result ((a b : List ℕ) → fields 2 line.now ≡ Some (word.now ∷ a ∷ b ∷ []) → ⊥) }
{
    two(behind(line, word)?)
}

/// The three fields behind a word. None exactly where the line is no such line.
pub fn three_behind<'a>(line: &'a [u8], word: &[u8]) -> Option<(&'a [u8], &'a [u8], &'a [u8])>
    ensures some { IfSome result (λ f.
        fields 3 line.now ≡ Some (word.now ∷ f.0.now ∷ f.1.now ∷ f.2.now ∷ [])) }
    ensures none { IfNone result ((a b c : List ℕ) →
        fields 3 line.now ≡ Some (word.now ∷ a ∷ b ∷ c ∷ []) → ⊥) }
{
    three(behind(line, word)?)
}

/// The four fields behind a word. None exactly where the line is no such line.
pub fn four_behind<'a>(
    line: &'a [u8],
    word: &[u8],
) -> Option<(&'a [u8], &'a [u8], &'a [u8], &'a [u8])>
    ensures some { IfSome result (λ f.
        fields 4 line.now ≡ Some (word.now ∷ f.0.now ∷ f.1.now ∷ f.2.now ∷ f.3.now ∷ [])) }
    ensures none { IfNone result ((a b c d : List ℕ) →
        fields 4 line.now ≡ Some (word.now ∷ a ∷ b ∷ c ∷ d ∷ []) → ⊥) }
{
    four(behind(line, word)?)
}
