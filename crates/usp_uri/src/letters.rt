//! The classes of bytes that a URI is made of.

ghost use Rattle.std.specs.Prelude.{◌≡◌};
ghost use Rattle.usp_uri.specs.Letters.{is_unreserved, is_sub_delim, is_gen_delim, is_literal};

/// A letter, a digit, `-`, `.`, `_` or `~` (RFC 3986 section 2.3).
pub fn is_unreserved(c: u8) -> bool
    ensures { result ≡ is_unreserved c }
{
    c.is_ascii_alphanumeric() || matches!(c, b'-' | b'.' | b'_' | b'~')
}

/// A delimiter within a component (RFC 3986 section 2.2).
pub fn is_sub_delim(c: u8) -> bool
    ensures { result ≡ is_sub_delim c }
{
    matches!(
        c,
        b'!' | b'$' | b'&' | b'\'' | b'(' | b')' | b'*' | b'+' | b',' | b';' | b'='
    )
}

/// A delimiter between components (RFC 3986 section 2.2).
pub fn is_gen_delim(c: u8) -> bool
    ensures { result ≡ is_gen_delim c }
{
    matches!(c, b':' | b'/' | b'?' | b'#' | b'[' | b']' | b'@')
}

/// What stands for itself in a path or a query.
pub fn is_literal(c: u8) -> bool
    ensures { result ≡ is_literal c }
{
    is_unreserved(c) || is_sub_delim(c) || matches!(c, b':' | b'@' | b'/' | b'?')
}
