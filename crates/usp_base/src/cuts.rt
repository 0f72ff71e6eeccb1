//! Texts cut at a byte, or behind a prefix.
ghost use Rattle.std.specs.Prelude.{◌≡◌, ◌==◌, position};
ghost use Rattle.std.specs.Option.{option_map, option_copied};
ghost use Rattle.usp_base.specs.Cuts.{cut_at, after_prefix, without_end};

// The first place of a byte.
fn place_of(text: &[u8], byte: u8) -> Option<usize>
    ensures { result ≡ position (λ b. b == byte) text.now }
{
    text.iter().position(|b| *b == byte)
}

/// What stands before and behind the first such byte. None exactly where there is none.
pub fn cut_at(text: &[u8], byte: u8) -> Option<(&[u8], &[u8])>
    ensures { option_map (λ cut. (cut.0.now, cut.1.now)) result ≡ cut_at byte text.now }
{
    let place = place_of(text, byte)?;
    Some((text.split_at(place).0, text.split_at(place + 1).1))
}

/// What stands behind a prefix. None exactly where the text doesn't begin with it.
pub fn after_prefix<'a>(text: &'a [u8], prefix: &[u8]) -> Option<&'a [u8]>
    ensures { option_copied result ≡ after_prefix prefix.now text.now }
{
    text.strip_prefix(prefix)
}

/// The text without one such byte at its end.
pub fn without_end(text: &[u8], byte: u8) -> &[u8]
    ensures { result.now ≡ without_end byte text.now }
{
    text.strip_suffix(&[byte]).unwrap_or(text)
}
