//! Reading.

ghost use Rattle.std.specs.Prelude.{◌≡◌, ◌≢◌, ◌∷◌, [], reverse, Some, IfOk, IfErr, MatchOption};
ghost use Rattle.usp_json.specs.Spells.{IsReading};
ghost use Rattle.usp_json.specs.Faults.{RefusesJson};
ghost use Rattle.usp_json.specs.Machine.{is_deep_at, is_many_at, is_duplicate_at, fault_of};
ghost use Rattle.usp_json.specs.Entries.{members_of};
ghost use Rattle.usp_json.specs.declared.frame.Frame.TheVariants.{Object};

use crate::frame::Frame;
use crate::states::{Expect, Piece, Role};
use crate::steps::{advance, is_whole_number};
use crate::{JsonFault, Members};
use std::alloc::Global;

fn is_deep_at(expect: Expect, b: u8) -> bool
    ensures { result ≡ is_deep_at expect b }
{
    match expect {
        Expect::Value | Expect::ValueOrEnd => b == b'[' || b == b'{',
        _ => false,
    }
}

fn is_many_at(expect: Expect, b: u8) -> bool
    ensures { result ≡ is_many_at expect b }
{
    match expect {
        Expect::CommaOrEnd => b == b',',
        Expect::Number { part } => is_whole_number(part) && b == b',',
        _ => false,
    }
}

fn is_duplicate_at(expect: Expect, b: u8) -> bool
    ensures { result ≡ is_duplicate_at expect b }
{
    match expect {
        Expect::Text {
            role: Role::Name,
            piece: Piece::Start,
        } => b == b'"',
        _ => false,
    }
}

// The fault of a byte that was refused.
fn fault_of(expect: Expect, b: u8, at: usize) -> JsonFault
    ensures { result ≡ fault_of expect b at }
{
    if is_deep_at(expect, b) {
        return JsonFault::Deep { at };
    }
    if is_many_at(expect, b) {
        return JsonFault::Many { at };
    }
    if is_duplicate_at(expect, b) {
        return JsonFault::Duplicate { at };
    }
    JsonFault::Syntax { at }
}

// The members of the only frame that is left.
fn last_members(frames: &mut Vec<Frame>) -> Option<Members>
    ensures { MatchOption result
        ((names values : _) → reverse frames.old.items ≢ Object names values ∷ [])
        (λ m. (names values : _) → reverse frames.old.items ≡ Object names values ∷ []
        → m ≡ members_of names values) }
{
    let Some(Frame::Object { names, values }) = frames.pop() else {
        return None;
    };
    Some(Members { names, values })
}

/// Reads one object with white space round it: any spelling of RFC 8259, with at most `MAX_LEVELS` levels, at most
/// `MAX_MEMBERS` members in each object, and no two equal names in one. A number is kept as it was spelled.
pub fn read_members(alloc: Global, text: &[u8]) -> Result<Members, JsonFault>
    ensures ok { IfOk result (λ m. IsReading text.now m) }
    ensures fault { IfErr result (λ e. RefusesJson e text.now) }
{
    let mut expect = Expect::Object;
    let mut got = Vec::new(alloc);
    let mut frames = Vec::new(alloc);
    for (i, b) in text.iter().enumerate() {
        match advance(alloc, expect, &mut got, &mut frames, *b)? {
            None => return Err(fault_of(expect, *b, i)),
            Some(next) => expect = next,
        }
    }
    let Expect::End = expect else {
        return Err(JsonFault::Syntax { at: text.len() });
    };
    match last_members(&mut frames) {
        Some(members) => Ok(members),
        None => Err(JsonFault::Syntax { at: text.len() }),
    }
}
