//! Which bytes a class holds.
ghost use Rattle.std.specs.Prelude.{◌≡◌};
ghost use Rattle.usp_ere.specs.Letters.{capital_a, capital_z, small_a, small_z};
ghost use Rattle.usp_ere.specs.Sets.{between, class_holds};

use crate::class::Class;
use usp_base::is_digit;

/// Whether the byte is of the class.
pub fn class_has(class: Class, byte: u8) -> bool
    ensures { result ≡ class_holds class byte }
{
    match class {
        Class::Alpha => is_upper(byte) || is_lower(byte),
        Class::Digit => is_digit(byte),
        Class::Alnum => is_digit(byte) || is_upper(byte) || is_lower(byte),
        Class::Upper => is_upper(byte),
        Class::Lower => is_lower(byte),
        Class::Space => byte == b' ' || is_between(b'\t', b'\r', byte),
        Class::Blank => byte == b' ' || byte == b'\t',
        Class::Punct => {
            is_between(b'!', b'/', byte)
                || is_between(b':', b'@', byte)
                || is_between(b'[', b'`', byte)
                || is_between(b'{', b'~', byte)
        }
        Class::Print => is_between(b' ', b'~', byte),
        Class::Graph => is_between(b'!', b'~', byte),
        Class::Cntrl => byte <= 0x1f || byte == 0x7f,
        Class::Xdigit => is_digit(byte)
            || is_between(b'A', b'F', byte)
            || is_between(b'a', b'f', byte),
    }
}

/// Whether the byte is from the first to the last, both in it.
pub fn is_between(first: u8, last: u8, byte: u8) -> bool
    ensures { result ≡ between first last byte }
{
    first <= byte && byte <= last
}

/// Whether the byte is a capital letter.
pub fn is_upper(byte: u8) -> bool
    ensures { result ≡ between capital_a capital_z byte }
{
    is_between(b'A', b'Z', byte)
}

/// Whether the byte is a small letter.
pub fn is_lower(byte: u8) -> bool
    ensures { result ≡ between small_a small_z byte }
{
    is_between(b'a', b'z', byte)
}
