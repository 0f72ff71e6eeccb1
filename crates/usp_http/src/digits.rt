//! Numbers that digits spell.
ghost use Rattle.std.specs.Prelude.{◌≡◌};
ghost use Rattle.std.specs.List.{list_all};
ghost use Rattle.usp_base.specs.Numbers.{is_digit};
ghost use Rattle.usp_http.specs.Digits.{are_digits, at_most, number_in};

use usp_base::is_digit;

fn all_digits(text: &[u8]) -> bool
    ensures { result ≡ list_all is_digit text.now }
{
    text.iter().all(|b| is_digit(*b))
}

/// Whether the text is one or more digits.
pub fn are_digits(text: &[u8]) -> bool
    ensures { result ≡ are_digits text.now }
{
    match text {
        [] => false,
        [_, ..] => all_digits(text),
    }
}

/// The number that one or more digits spell, where it is at most `most`. Zeros may lead, as in `Content-Length`
/// (RFC 9110, section 8.6) and in playlists (RFC 8216, section 4.2).
pub fn read_digits(text: &[u8], most: u64) -> Option<u64>
    ensures { result ≡ at_most most (number_in text.now) }
{
    if !are_digits(text) {
        return None;
    }
    let mut value = 0u128;
    for digit in text {
        if value > most as u128 {
            return None;
        }
        value = value * 10 + digit.saturating_sub(b'0') as u128;
    }
    if value > most as u128 {
        None
    } else {
        Some(value as u64)
    }
}
