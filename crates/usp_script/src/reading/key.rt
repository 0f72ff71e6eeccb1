//! The line of a key.
ghost use Rattle.std.specs.Prelude.{◌≡◌, List, ℕ, IfOk, IfErr, MatchOption};
ghost use Rattle.std.specs.Option.{option_copied};
ghost use Rattle.std.specs.List.{find};
ghost use Rattle.std.specs.Str.{bytes_eq};
ghost use Rattle.usp_jws.specs.Keys.{KeyValue, has_kid};
ghost use Rattle.usp_script.specs.Reading.{AddsKey};

use super::fields::three_behind;
use crate::draft::Draft;
use crate::memory::NoMemory;
use std::alloc::Global;
use usp_jws::{Key, decode_base64url};

/// The key of that name. None exactly where there is none.
pub fn key_named<'a>(keys: &'a [Key], kid: &[u8]) -> Option<&'a Key>
    ensures { option_copied result ≡ find (λ key. bytes_eq key.kid kid.now) keys.now }
{
    keys.iter().find(|key| key.kid() == kid)
}

fn has_kid(keys: &[Key], kid: &[u8]) -> bool
    ensures { result ≡ has_kid keys.now kid.now }
{
    keys.iter().any(|key| key.kid() == kid)
}

/// What a line `key KID ISSUER SECRET` adds. None exactly where it is no such line, or is refused.
pub fn key_in(alloc: Global, draft: &Draft, line: &[u8]) -> Result<Option<Key>, NoMemory>
    ensures { IfOk result (λ found. MatchOption found
        ((key : KeyValue) → AddsKey draft.now line.now key → ⊥)
        (λ key. AddsKey draft.now line.now key)) }
{
    if draft.has_begun() {
        return Ok(None);
    }
    let Some((kid, issuer, secret)) = three_behind(line, b"key") else {
        return Ok(None);
    };
    if has_kid(draft.keys(), kid) {
        return Ok(None);
    }
    let Some(secret) = decode_base64url(alloc, secret)? else {
        return Ok(None);
    };
    let fault = match Key::new(alloc, kid, issuer, &secret) {
        Ok(key) => return Ok(Some(key)),
        Err(fault) => fault,
    };
    if fault.is_memory() {
        return Err(NoMemory);
    }
    Ok(None)
}
