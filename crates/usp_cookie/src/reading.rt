//! The token in a Cookie field.

ghost use Rattle.std.specs.Prelude.{◌≡◌};
ghost use Rattle.std.specs.Option.{option_copied};
ghost use Rattle.usp_base.specs.Blanks.{trim_blanks};
ghost use Rattle.usp_cookie.specs.Cookies.{token_of, value_under};

use usp_base::{cut_at, trim_blanks};
use usp_package::AttrName;

/// What a piece says of the name, where it is a pair of that name.
fn value_under<'a>(name: &[u8], piece: &'a [u8]) -> Option<&'a [u8]>
    ensures { option_copied result ≡ value_under name.now (trim_blanks piece.now) }
{
    let (key, value) = cut_at(trim_blanks(piece), b'=')?;
    if key == name { Some(value) } else { None }
}

/// The value of the first pair of that name in a Cookie field's value (RFC 6265 section 4.2.1). The
/// pairs are parted by ';', and the blanks at their ends are dropped. None exactly where there is no
/// such pair.
pub fn token_of<'a>(name: &AttrName, value: &'a [u8]) -> Option<&'a [u8]>
    ensures { option_copied result ≡ token_of name.now value.now }
{
    let name = name.text();
    let mut rest = value;
    while let Some((piece, more)) = cut_at(rest, b';') {
        if let Some(found) = value_under(name, piece) {
            return Some(found);
        }
        rest = more;
    }
    value_under(name, rest)
}
