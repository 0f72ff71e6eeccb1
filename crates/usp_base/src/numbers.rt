//! Whole numbers in decimal.
ghost use Rattle.std.specs.Prelude.{◌≡◌, ◌<◌, ◌^◌};
ghost use Rattle.std.specs.List.{list_all};
ghost use Rattle.usp_base.specs.Numbers.{is_digit, is_whole, number_of};

/// Whether the byte is a digit, 0 to 9.
pub fn is_digit(b: u8) -> bool
    ensures { result ≡ is_digit b }
{
    b >= b'0' && b <= b'9'
}

fn are_digits(text: &[u8]) -> bool
    ensures { result ≡ list_all is_digit text.now }
{
    text.iter().all(|b| is_digit(*b))
}

fn is_whole(text: &[u8]) -> bool
    ensures { result ≡ is_whole text.now }
{
    match text {
        [] => false,
        [digit] => is_digit(*digit),
        [first, ..] => *first != b'0' && are_digits(text),
    }
}

/// The number that a text spells in decimal, without a sign or a leading zero, where it is at most
/// `most`.
pub fn read_number(text: &[u8], most: u64) -> Option<u64>
    requires { most < 2 ^ 60 }
    ensures { result ≡ number_of most text.now }
{
    if !is_whole(text) {
        return None;
    }
    let mut value = 0u64;
    for digit in text {
        if value > most {
            return None;
        }
        value = value * 10 + digit.saturating_sub(b'0') as u64;
    }
    if value > most { None } else { Some(value) }
}
