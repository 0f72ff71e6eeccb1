//! The bytes of a connection that are in no head yet.
ghost use Rattle.std.specs.Prelude.{◌≡◌, ◌≤◌, ◌<◌, ◌+◌, ◌-◌, true, length, drop, take, IfOk, OnErr, IsErr, vec_len};
ghost use Rattle.std.specs.Io.KnownBytes.{prepend_known, IsAtEnd};
ghost use Rattle.usp_base.specs.Outside.{HasCause};

use crate::NoMemory;
use std::alloc::Global;
use usp_base::{Failed, Source};

/// Room for so many bytes.
pub(crate) fn room_of(alloc: Global, len: usize) -> Result<Vec<u8>, NoMemory>
    ensures { IfOk result (λ bytes. vec_len bytes ≡ len) }
{
    Ok(vec![in alloc; 0u8; len]?)
}

/// Moves the `len` bytes that stand at `start` to the front.
pub(crate) fn move_to_front(bytes: &mut [u8], start: usize, len: usize)
    requires { start + len ≤ length bytes.old }
    ensures moved { take len bytes.new ≡ take len (drop start bytes.old) }
    ensures len { length bytes.new ≡ length bytes.old }
{
    if start > 0 {
        bytes.copy_within(start..start + len, 0);
    }
}

/// Reads once, and puts what comes behind the first `at` bytes.
pub(crate) fn read_behind<S: Source>(
    source: &mut S,
    bytes: &mut [u8],
    at: usize,
) -> Result<usize, Failed>
    requires { at < length bytes.old }
    ensures within { IfOk result (λ n. at + n ≤ length bytes.new) }
    ensures taken { IfOk result (λ n. S.left source.old
        ≡ prepend_known (take n (drop at bytes.new)) (S.left source.new)) }
    ensures kept { take at bytes.new ≡ take at bytes.old }
    ensures len { length bytes.new ≡ length bytes.old }
    ensures over { IfOk result (λ n. n ≡ 0 → (S.ended source.new ≡ true) × IsAtEnd (S.left source.new)) }
    ensures failed { OnErr result (S.left source.new ≡ S.left source.old) }
    ensures cause { HasCause (S.read_count source.old) (S.read_count source.new) (IsErr result) }
    ensures step { S.reads source.old source.new }
{
    source.read(&mut bytes[at..])
}
