//! The counts of a repeat, behind its `{`.
ghost use Rattle.std.specs.Prelude.{◌≡◌, ◌≤◌, length, IfSome};
ghost use Rattle.std.specs.List.{prefix_len};
ghost use Rattle.std.specs.Option.{option_map};
ghost use Rattle.usp_base.specs.Numbers.{is_digit};
ghost use Rattle.usp_ere.specs.CountText.{value_of, is_number, number_at, counts_at};

use usp_base::is_digit;

/// How many digits stand at the front of the text.
fn digit_count(text: &[u8]) -> usize
    ensures value { result ≡ prefix_len is_digit text.now }
    ensures within { result ≤ length text.now }
{
    for (i, byte) in text.iter().enumerate() {
        if !is_digit(*byte) {
            return i;
        }
    }
    text.len()
}

/// The number that the digits spell, where 256 stands for each above 255.
fn value(digits: &[u8]) -> u16
    ensures { result ≡ value_of digits.now }
{
    let mut value: u16 = 0;
    for digit in digits {
        value = (10 * value + u16::from(digit.saturating_sub(b'0'))).min(256);
    }
    value
}

/// Whether the digits are a number: there is one, and no leading zero.
fn spell_number(digits: &[u8]) -> bool
    ensures { result ≡ is_number digits.now }
{
    0 < digits.len() && !(digits.starts_with(b"0") && 1 < digits.len())
}

/// The number at the front of the text, and the text behind it.
fn number(text: &[u8]) -> Option<(u16, &[u8])>
    ensures { option_map (λ found. (found.0, found.1.now)) result ≡ number_at text.now }
{
    let (digits, rest) = text.split_at(digit_count(text));
    if !spell_number(digits) {
        return None;
    }
    Some((value(digits), rest))
}

/// The counts at the front of the text, and the text behind their `}`.
pub fn counts(text: &[u8]) -> Option<(u16, Option<u16>, &[u8])>
    ensures { option_map (λ found. (found.0, found.1, found.2.now)) result ≡ counts_at text.now }
{
    let (least, rest) = number(text)?;
    if rest.starts_with(b"}") {
        return Some((least, Some(least), &rest[1..]));
    }
    if rest.starts_with(b",}") {
        return Some((least, None, &rest[2..]));
    }
    if !rest.starts_with(b",") {
        return None;
    }
    let (most, rest) = number(&rest[1..])?;
    if !rest.starts_with(b"}") {
        return None;
    }
    Some((least, Some(most), &rest[1..]))
}
