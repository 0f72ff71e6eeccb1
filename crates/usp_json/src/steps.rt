//! What one more byte does to the open arrays and objects.

ghost use Rattle.std.specs.Prelude.{◌≡◌, ◌<◌, ◌++◌, ◌∷◌, [], length, reverse, drop, slice_get, OnOk, IfOk, MatchOption, None, Some, true, false, ◌==◌, if◌then◌else◌};
ghost use Rattle.std.specs.Str.{IsUtf8, bytes_eq};
ghost use Rattle.usp_base.specs.Numbers.{is_digit};
ghost use Rattle.usp_json.specs.Signs.{decimal_point, quotation_mark};
ghost use Rattle.usp_json.specs.Number.{number_first, number_step, is_whole_number, is_number};
ghost use Rattle.usp_json.specs.Grammar.{is_space, is_mark, is_sign};
ghost use Rattle.usp_json.specs.Spells.{given, has_name};
ghost use Rattle.usp_json.specs.Machine.{at, state_of, put, array_end, object_end, comma, comma_step, text_end, text_step, is_closing, value_step, number_from, letters_of, value_of_word, letters_step, step_at, opens, other_value, IsSound, IsPlain, Fits};

use crate::frame::Frame;
use crate::pieces::piece_step;
use crate::states::{Expect, NumberPart, Piece, Role, Word};
use crate::{Items, Json, MAX_LEVELS, MAX_MEMBERS, Members, NumText, Text};
use sqlite_items::Items as Row;
use std::alloc::{AllocError, Global};
use usp_base::is_digit;

fn is_space(b: u8) -> bool
    ensures { result ≡ is_space b }
{
    b == b' ' || b == b'\t' || b == b'\n' || b == b'\r'
}

fn is_mark(b: u8) -> bool
    ensures { result ≡ is_mark b }
{
    b == b'e' || b == b'E'
}

fn is_sign(b: u8) -> bool
    ensures { result ≡ is_sign b }
{
    b == b'+' || b == b'-'
}

// A point or a mark behind a whole number.
fn after_digits(b: u8, point: bool) -> Option<NumberPart>
    ensures { result ≡ (if point
        then (if b == decimal_point then Some NumberPart.Point else (if is_mark b then Some NumberPart.Mark else None))
        else (if is_mark b then Some NumberPart.Mark else None)) }
{
    if point && b == b'.' {
        return Some(NumberPart::Point);
    }
    if is_mark(b) {
        return Some(NumberPart::Mark);
    }
    None
}

/// The part behind a digit. None where the byte is none.
fn behind_digit(b: u8, next: NumberPart) -> Option<NumberPart>
    ensures { result ≡ if is_digit b then Some next else None }
{
    if is_digit(b) { Some(next) } else { None }
}

fn number_step(part: NumberPart, b: u8) -> Option<NumberPart>
    ensures { result ≡ number_step part b }
{
    match part {
        NumberPart::Minus if b == b'0' => Some(NumberPart::Zero),
        NumberPart::Minus => behind_digit(b, NumberPart::Whole),
        NumberPart::Zero => after_digits(b, true),
        NumberPart::Whole if is_digit(b) => Some(NumberPart::Whole),
        NumberPart::Whole => after_digits(b, true),
        NumberPart::Point => behind_digit(b, NumberPart::Fraction),
        NumberPart::Fraction if is_digit(b) => Some(NumberPart::Fraction),
        NumberPart::Fraction => after_digits(b, false),
        NumberPart::Mark if is_sign(b) && !is_digit(b) => Some(NumberPart::Sign),
        NumberPart::Mark | NumberPart::Sign | NumberPart::Exponent => {
            behind_digit(b, NumberPart::Exponent)
        }
    }
}

fn number_first(b: u8) -> Option<NumberPart>
    ensures { result ≡ number_first b }
{
    if b == b'-' {
        return Some(NumberPart::Minus);
    }
    number_step(NumberPart::Minus, b)
}

pub(crate) fn is_whole_number(part: NumberPart) -> bool
    ensures { result ≡ is_whole_number part }
{
    match part {
        NumberPart::Zero | NumberPart::Whole | NumberPart::Fraction | NumberPart::Exponent => true,
        _ => false,
    }
}

// A value goes into the frame that was opened last.
fn put(frames: &mut Vec<Frame>, value: Json) -> Result<(), AllocError>
    ensures { OnOk result (reverse frames.new.items ≡ put value (reverse frames.old.items)) }
{
    let Some(frame) = frames.pop() else {
        return Ok(());
    };
    match frame {
        Frame::Array { values } => {
            let mut values = values;
            values.push(value)?;
            frames.push(Frame::Array { values })?;
        }
        Frame::Object { names, values } => {
            let mut values = values;
            values.push(value)?;
            frames.push(Frame::Object { names, values })?;
        }
    }
    Ok(())
}

fn array_end(frames: &mut Vec<Frame>) -> Result<Option<Expect>, AllocError>
    ensures { IfOk result (λ moved. MatchOption moved (array_end (reverse frames.old.items) ≡ None)
        (λ e. array_end (reverse frames.old.items) ≡ Some (at e (reverse frames.new.items)))) }
{
    let Some(frame) = frames.pop() else {
        return Ok(None);
    };
    let Frame::Array { values } = frame else {
        return Ok(None);
    };
    put(frames, Json::List(Items { values }))?;
    Ok(Some(Expect::CommaOrEnd))
}

#[tactic(auto, using(crate::proofs::Frames::inner_end, crate::proofs::Frames::same_len, crate::proofs::Frames::empty))]
fn object_end(frames: &mut Vec<Frame>) -> Result<Option<Expect>, AllocError>
    ensures { IfOk result (λ moved.
        MatchOption moved (object_end (reverse frames.old.items) ≡ None)
        (λ e. object_end (reverse frames.old.items) ≡ Some (at e (reverse frames.new.items)))) }
{
    let Some(frame) = frames.pop() else {
        return Ok(None);
    };
    let Frame::Object { names, values } = frame else {
        return Ok(None);
    };
    if frames.is_empty() {
        frames.push(Frame::Object { names, values })?;
        return Ok(Some(Expect::End));
    }
    put(frames, Json::Obj(Members { names, values }))?;
    Ok(Some(Expect::CommaOrEnd))
}

fn comma(frames: &mut Vec<Frame>) -> Result<Option<Expect>, AllocError>
    ensures { IfOk result (λ moved.
        MatchOption moved (comma given (reverse frames.old.items) ≡ None)
        (λ e. comma given (reverse frames.old.items) ≡ Some (at e (reverse frames.new.items)))) }
{
    let Some(frame) = frames.pop() else {
        return Ok(None);
    };
    match frame {
        Frame::Array { values } => {
            frames.push(Frame::Array { values })?;
            Ok(Some(Expect::Value))
        }
        Frame::Object { names, values } => {
            if names.len() >= MAX_MEMBERS {
                return Ok(None);
            }
            frames.push(Frame::Object { names, values })?;
            Ok(Some(Expect::Name))
        }
    }
}

fn comma_step(frames: &mut Vec<Frame>, b: u8) -> Result<Option<Expect>, AllocError>
    ensures { IfOk result (λ moved.
        MatchOption moved (comma_step given (reverse frames.old.items) b ≡ None)
        (λ e. comma_step given (reverse frames.old.items) b
        ≡ Some (at e (reverse frames.new.items)))) }
{
    if is_space(b) {
        return Ok(Some(Expect::CommaOrEnd));
    }
    if b == b',' {
        return comma(frames);
    }
    if b == b']' {
        return array_end(frames);
    }
    if b == b'}' {
        return object_end(frames);
    }
    Ok(None)
}

pub(crate) fn is_name(other: &Text, name: &[u8]) -> bool
    ensures { result ≡ bytes_eq other.now name.now }
{
    other.text().as_bytes() == name
}

fn name_at(names: &[Text], place: usize) -> &Text
    requires { place < length names.now }
    ensures { slice_get names.now place ≡ Some result.now }
{
    &names[place]
}

fn has_name(names: &[Text], name: &[u8]) -> bool
    ensures { result ≡ has_name name.now names.now }
{
    for i in 0..names.len() {
        if is_name(name_at(names, i), name) {
            return true;
        }
    }
    false
}

// The closing quote of a text.
fn text_end(role: Role, text: Text, frames: &mut Vec<Frame>) -> Result<Option<Expect>, AllocError>
    ensures { IfOk result (λ moved.
        MatchOption moved (text_end given role text (reverse frames.old.items) ≡ None)
        (λ e. text_end given role text (reverse frames.old.items)
        ≡ Some (at e (reverse frames.new.items)))) }
{
    match role {
        Role::Value => {
            put(frames, Json::Str(text))?;
            Ok(Some(Expect::CommaOrEnd))
        }
        Role::Name => {
            let Some(frame) = frames.pop() else {
                return Ok(None);
            };
            let Frame::Object { names, values } = frame else {
                return Ok(None);
            };
            let mut names = names;
            if has_name(names.as_slice(), text.text().as_bytes()) {
                return Ok(None);
            }
            names.push(text)?;
            frames.push(Frame::Object { names, values })?;
            Ok(Some(Expect::Colon))
        }
    }
}

fn is_closing(piece: Piece, b: u8) -> bool
    ensures { result ≡ is_closing piece b }
{
    match piece {
        Piece::Start => b == b'"',
        _ => false,
    }
}

fn take_bytes(alloc: Global, got: &mut Vec<u8>) -> Vec<u8>
    ensures taken { result.items ≡ got.old.items }
    ensures left { got.new.items ≡ [] }
{
    std::mem::replace(got, Vec::new(alloc))
}

#[tactic(auto, using(crate::proofs::Frames::closing_quote))]
fn text_step(
    alloc: Global,
    role: Role,
    piece: Piece,
    got: &mut Vec<u8>,
    frames: &mut Vec<Frame>,
    b: u8,
) -> Result<Option<Expect>, AllocError>
    requires fits { Fits piece }
    requires utf8 { is_closing piece quotation_mark ≡ true → IsUtf8 got.old.items }
    ensures { IfOk result (λ moved.
        MatchOption moved (text_step given role piece got.old.items (reverse frames.old.items) b ≡ None)
        (λ e. text_step given role piece got.old.items (reverse frames.old.items) b
        ≡ Some (state_of e got.new.items frames.new.items))) }
{
    if is_closing(piece, b) {
        let text = Text::from_bytes(take_bytes(alloc, got));
        return text_end(role, text, frames);
    }
    match piece_step(piece, got, b)? {
        None => Ok(None),
        Some(next) => Ok(Some(Expect::Text { role, piece: next })),
    }
}

fn number_byte(
    alloc: Global,
    part: NumberPart,
    got: &mut Vec<u8>,
    frames: &mut Vec<Frame>,
    b: u8,
) -> Result<Option<Expect>, AllocError>
    requires { is_whole_number part ≡ true → is_number got.old.items ≡ true }
    ensures { IfOk result (λ moved.
        MatchOption moved
        (number_from given part got.old.items (reverse frames.old.items) b (number_step part b) ≡ None)
        (λ e. number_from given part got.old.items (reverse frames.old.items) b (number_step part b)
        ≡ Some (state_of e got.new.items frames.new.items))) }
{
    if let Some(next) = number_step(part, b) {
        got.push(b)?;
        return Ok(Some(Expect::Number { part: next }));
    }
    if !is_whole_number(part) {
        return Ok(None);
    }
    let number = NumText::from_bytes(take_bytes(alloc, got));
    put(frames, Json::Num(number))?;
    comma_step(frames, b)
}

fn letters(word: Word) -> &'static [u8]
    ensures { result.now ≡ letters_of word }
{
    match word {
        Word::Null => b"null",
        Word::True => b"true",
        Word::False => b"false",
    }
}

fn value_of_word(word: Word) -> Json
    ensures { result ≡ value_of_word word }
{
    match word {
        Word::Null => Json::Null,
        Word::True => Json::Bool(true),
        Word::False => Json::Bool(false),
    }
}

#[tactic(auto, using(crate::proofs::Frames::no_letter))]
fn letters_step(
    word: Word,
    place: usize,
    frames: &mut Vec<Frame>,
    b: u8,
) -> Result<Option<Expect>, AllocError>
    requires { place < length (letters_of word) }
    ensures { IfOk result (λ moved.
        MatchOption moved (letters_step word place (reverse frames.old.items) b ≡ None)
        (λ e. letters_step word place (reverse frames.old.items) b
        ≡ Some (at e (reverse frames.new.items)))) }
{
    let letters = letters(word);
    if letters[place] != b {
        return Ok(None);
    }
    if place + 1 < letters.len() {
        return Ok(Some(Expect::Letters {
            word,
            place: place + 1,
        }));
    }
    put(frames, value_of_word(word))?;
    Ok(Some(Expect::CommaOrEnd))
}

#[tactic(auto, using(crate::proofs::Frames::same_len))]
fn open_frame(
    frames: &mut Vec<Frame>,
    frame: Frame,
    next: Expect,
) -> Result<Option<Expect>, AllocError>
    ensures { IfOk result (λ moved.
        MatchOption moved (opens given (reverse frames.old.items) ≡ false)
        (λ e. (opens given (reverse frames.old.items) ≡ true) × (e ≡ next)
        × (reverse frames.new.items ≡ frame ∷ reverse frames.old.items))) }
{
    if frames.len() > MAX_LEVELS - 1 {
        return Ok(None);
    }
    frames.push(frame)?;
    Ok(Some(next))
}

// A byte where a value may come, and no number.
fn other_value(alloc: Global, frames: &mut Vec<Frame>, b: u8) -> Result<Option<Expect>, AllocError>
    ensures { IfOk result (λ moved.
        MatchOption moved (other_value given (reverse frames.old.items) b ≡ None)
        (λ e. other_value given (reverse frames.old.items) b
        ≡ Some (at e (reverse frames.new.items)))) }
{
    if b == b'"' {
        return Ok(Some(Expect::Text {
            role: Role::Value,
            piece: Piece::Start,
        }));
    }
    if b == b'[' {
        let frame = Frame::Array {
            values: Row::new(alloc),
        };
        return open_frame(frames, frame, Expect::ValueOrEnd);
    }
    if b == b'{' {
        let frame = Frame::Object {
            names: Row::new(alloc),
            values: Row::new(alloc),
        };
        return open_frame(frames, frame, Expect::NameOrEnd);
    }
    if b == b'n' {
        return Ok(Some(Expect::Letters {
            word: Word::Null,
            place: 1,
        }));
    }
    if b == b't' {
        return Ok(Some(Expect::Letters {
            word: Word::True,
            place: 1,
        }));
    }
    if b == b'f' {
        return Ok(Some(Expect::Letters {
            word: Word::False,
            place: 1,
        }));
    }
    Ok(None)
}

fn value_step(
    alloc: Global,
    got: &mut Vec<u8>,
    frames: &mut Vec<Frame>,
    b: u8,
) -> Result<Option<Expect>, AllocError>
    requires { got.old.items ≡ [] }
    ensures { IfOk result (λ moved.
        MatchOption moved (value_step given (reverse frames.old.items) b ≡ None)
        (λ e. value_step given (reverse frames.old.items) b
        ≡ Some (state_of e got.new.items frames.new.items))) }
{
    if let Some(part) = number_first(b) {
        got.push(b)?;
        return Ok(Some(Expect::Number { part }));
    }
    other_value(alloc, frames, b)
}

const NAME: Expect = Expect::Text {
    role: Role::Name,
    piece: Piece::Start,
};

// A byte between texts, numbers and words.
fn plain_step(
    alloc: Global,
    expect: Expect,
    got: &mut Vec<u8>,
    frames: &mut Vec<Frame>,
    b: u8,
) -> Result<Option<Expect>, AllocError>
    requires { got.old.items ≡ [] }
    ensures { IfOk result (λ moved. IsPlain expect →
        MatchOption moved (step_at given expect [] (reverse frames.old.items) b ≡ None)
        (λ e. step_at given expect [] (reverse frames.old.items) b
        ≡ Some (state_of e got.new.items frames.new.items))) }
{
    if is_space(b) {
        return Ok(Some(expect));
    }
    match expect {
        Expect::Object if b == b'{' => {
            frames.push(Frame::Object {
                names: Row::new(alloc),
                values: Row::new(alloc),
            })?;
            Ok(Some(Expect::NameOrEnd))
        }
        Expect::Value => value_step(alloc, got, frames, b),
        Expect::ValueOrEnd if b == b']' => array_end(frames),
        Expect::ValueOrEnd => value_step(alloc, got, frames, b),
        Expect::Name if b == b'"' => Ok(Some(NAME)),
        Expect::NameOrEnd if b == b'"' => Ok(Some(NAME)),
        Expect::NameOrEnd if b == b'}' => object_end(frames),
        Expect::Colon if b == b':' => Ok(Some(Expect::Value)),
        Expect::CommaOrEnd => comma_step(frames, b),
        _ => Ok(None),
    }
}

/// One more byte.
pub(crate) fn advance(
    alloc: Global,
    expect: Expect,
    got: &mut Vec<u8>,
    frames: &mut Vec<Frame>,
    b: u8,
) -> Result<Option<Expect>, AllocError>
    requires { IsSound expect got.old.items }
    ensures { IfOk result (λ moved.
        MatchOption moved (step_at given expect got.old.items (reverse frames.old.items) b ≡ None)
        (λ e. step_at given expect got.old.items (reverse frames.old.items) b
        ≡ Some (state_of e got.new.items frames.new.items))) }
{
    match expect {
        Expect::Text { role, piece } => text_step(alloc, role, piece, got, frames, b),
        Expect::Number { part } => number_byte(alloc, part, got, frames, b),
        Expect::Letters { word, place } => {
            got.clear();
            letters_step(word, place, frames, b)
        }
        _ => {
            got.clear();
            plain_step(alloc, expect, got, frames, b)
        }
    }
}
