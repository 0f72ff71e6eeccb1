//! The value of a Set-Cookie field.

ghost use Rattle.std.specs.Prelude.{◌≡◌, IfOk};
ghost use Rattle.usp_cookie.specs.Cookies.{set_cookie};

use crate::NoMemory;
use std::alloc::Global;
use usp_jws::Token;
use usp_package::AttrName;

/// The value of the Set-Cookie field that stores the token: `NAME=TOKEN; Path=PATH` (RFC 6265 section
/// 4.1.1).
pub fn set_cookie(
    alloc: Global,
    name: &AttrName,
    token: &Token,
    path: &[u8],
) -> Result<Vec<u8>, NoMemory>
    ensures { IfOk result (λ text. text.items ≡ set_cookie name.now token.now path.now) }
{
    let mut text = Vec::new(alloc);
    text.extend_from_slice(name.text())?;
    text.push(b'=')?;
    text.extend_from_slice(token.text())?;
    text.extend_from_slice(b"; Path=")?;
    text.extend_from_slice(path)?;
    Ok(text)
}
