//! The grants of a generated script.
ghost use Rattle.std.specs.Prelude.{◌≡◌, ◌+◌, ◌≤◌, ◌<◌, ◌++◌, codes, length, replicate, IfOk, OnOk};
ghost use Rattle.std.specs.Fmt.{decimal};
ghost use Rattle.usp_base.specs.declared.limits.TheConstants.{MOMENT_BOUND};
ghost use Rattle.usp_script.specs.Generator.{grant_text, grant_token, provider_key};

use crate::NoMemory;
use std::alloc::Global;
use usp_jws::{Key, KeyFault, Token, seal};

// Puts a number behind a text.
fn push_number(alloc: Global, text: &mut Vec<u8>, number: u64) -> Result<(), NoMemory>
    ensures { OnOk result (text.new.items ≡ text.old.items ++ decimal number) }
{
    let digits = number.to_string(alloc)?;
    text.extend_from_slice(digits.as_bytes())?;
    Ok(())
}

// The claims of the grant of a group, whose first ask is at this moment.
fn grant_text(alloc: Global, group: u64, moment: u64) -> Result<Vec<u8>, NoMemory>
    requires { moment < MOMENT_BOUND }
    ensures text { IfOk result (λ text. text.items ≡ grant_text group moment) }
    ensures short { IfOk result (λ text. length text.items ≤ 300) }
{
    let mut text = Vec::new(alloc);
    text.extend_from_slice(b"{\"iss\":\"cp\",\"aud\":\"cdn-a\",\"exp\":")?;
    push_number(alloc, &mut text, moment + 1000)?;
    text.extend_from_slice(b",\"nbf\":")?;
    push_number(alloc, &mut text, moment)?;
    text.extend_from_slice(b",\"jti\":\"n")?;
    push_number(alloc, &mut text, group)?;
    text.extend_from_slice(
        b"\",\"cdniets\":30,\"cdnistt\":1,\"cdnistd\":0,\"cdniuc\":\"regex:^https://[^/]*/\"}",
    )?;
    Ok(text)
}

/// The provider's key.
#[tactic(auto, using(crate::proofs::Grants::key_not_refused))]
pub fn provider_key(alloc: Global) -> Result<Key, NoMemory>
    ensures { IfOk result (λ key. key ≡ provider_key) }
{
    match Key::new(alloc, b"kp", b"cp", &[1; 32]) {
        Ok(key) => Ok(key),
        Err(KeyFault::NoMemory) => Err(NoMemory),
        Err(_) => unreachable!(),
    }
}

/// The grant of a group, whose first ask is at this moment, sealed with the provider's key.
pub fn grant_token(alloc: Global, key: &Key, group: u64, moment: u64) -> Result<Token, NoMemory>
    requires moment { moment < MOMENT_BOUND }
    requires key { key.now ≡ provider_key }
    ensures { IfOk result (λ token. token ≡ grant_token group moment) }
{
    let text = grant_text(alloc, group, moment)?;
    Ok(seal(alloc, key, &text)?)
}
