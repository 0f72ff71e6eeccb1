//! The bytes of a text, one after the other.

ghost use Rattle.std.specs.Prelude.{◌≡◌, ◌<◌, ◌++◌, ◌∷◌, [], OnOk, IfOk, MatchOption, None, Some, true, false, encode_utf8};
ghost use Rattle.usp_json.specs.Grammar.{hex_value, escaped};
ghost use Rattle.usp_json.specs.Pieces.{between, start_step, letter_step, first_fits, second_fits, unit_step, digit_step, piece_step};
ghost use Rattle.usp_json.specs.Machine.{Fits};

use crate::states::Piece;
use std::alloc::AllocError;

fn between(least: u8, most: u8, b: u8) -> bool
    ensures { result ≡ between least most b }
{
    least <= b && b <= most
}

fn hex_value(b: u8) -> Option<u32>
    ensures { result ≡ hex_value b }
{
    if between(b'0', b'9', b) {
        return Some(u32::from(b - b'0'));
    }
    if between(b'a', b'f', b) {
        return Some(u32::from(b - b'a' + 10));
    }
    if between(b'A', b'F', b) {
        return Some(u32::from(b - b'A' + 10));
    }
    None
}

fn short_escape(b: u8) -> Option<u32>
    ensures { result ≡ escaped b }
{
    match b {
        b'"' => Some(u32::from(b'"')),
        b'\\' => Some(u32::from(b'\\')),
        b'/' => Some(u32::from(b'/')),
        b'b' => Some(u32::from(b'\x08')),
        b'f' => Some(u32::from(b'\x0c')),
        b'n' => Some(u32::from(b'\n')),
        b'r' => Some(u32::from(b'\r')),
        b't' => Some(u32::from(b'\t')),
        _ => None,
    }
}

// The UTF-8 of a character.
#[tactic(auto, using(crate::proofs::CharLemmas::utf8_rules))]
fn push_utf8(got: &mut Vec<u8>, c: u32) -> Result<(), AllocError>
    requires { c < 2097152 }
    ensures { OnOk result (got.new.items ≡ got.old.items ++ encode_utf8 c) }
{
    if c < 128 {
        return got.extend_from_slice(&[c as u8]);
    }
    if c < 2048 {
        return got.extend_from_slice(&[(192 + c / 64) as u8, (128 + c % 64) as u8]);
    }
    if c < 65536 {
        return got.extend_from_slice(&[
            (224 + c / 4096) as u8,
            (128 + c / 64 % 64) as u8,
            (128 + c % 64) as u8,
        ]);
    }
    got.extend_from_slice(&[
        (240 + c / 262144) as u8,
        (128 + c / 4096 % 64) as u8,
        (128 + c / 64 % 64) as u8,
        (128 + c % 64) as u8,
    ])
}

// The byte goes to those of the text.
fn keep_byte(got: &mut Vec<u8>, b: u8, next: Piece) -> Result<Option<Piece>, AllocError>
    ensures { IfOk result (λ moved.
        (moved ≡ Some next) × (got.new.items ≡ got.old.items ++ b ∷ [])) }
{
    got.push(b)?;
    Ok(Some(next))
}

/// The next byte is the last but one of a character, in these bounds (RFC 3629 section 4).
fn last_but_one(least: u8, most: u8) -> Piece
    ensures { result ≡ Piece.LastButOne least most }
{
    Piece::LastButOne { least, most }
}

/// The next byte is the last but two of a character, in these bounds (RFC 3629 section 4).
fn last_but_two(least: u8, most: u8) -> Piece
    ensures { result ≡ Piece.LastButTwo least most }
{
    Piece::LastButTwo { least, most }
}

fn start_step(got: &mut Vec<u8>, b: u8) -> Result<Option<Piece>, AllocError>
    ensures { IfOk result (λ moved. MatchOption moved (start_step got.old.items b ≡ None)
        (λ next. start_step got.old.items b ≡ Some (next, got.new.items))) }
{
    if b == b'"' {
        return Ok(None);
    }
    if b == b'\\' {
        return Ok(Some(Piece::Letter));
    }
    if between(b' ', b'\x7f', b) {
        return keep_byte(got, b, Piece::Start);
    }
    if between(b'\xc2', b'\xdf', b) {
        return keep_byte(got, b, Piece::Last);
    }
    if b == b'\xe0' {
        return keep_byte(got, b, last_but_one(b'\xa0', b'\xbf'));
    }
    if b == b'\xed' {
        return keep_byte(got, b, last_but_one(b'\x80', b'\x9f'));
    }
    if between(b'\xe1', b'\xef', b) {
        return keep_byte(got, b, last_but_one(b'\x80', b'\xbf'));
    }
    if b == b'\xf0' {
        return keep_byte(got, b, last_but_two(b'\x90', b'\xbf'));
    }
    if between(b'\xf1', b'\xf3', b) {
        return keep_byte(got, b, last_but_two(b'\x80', b'\xbf'));
    }
    if b == b'\xf4' {
        return keep_byte(got, b, last_but_two(b'\x80', b'\x8f'));
    }
    Ok(None)
}

fn letter_step(got: &mut Vec<u8>, b: u8) -> Result<Option<Piece>, AllocError>
    ensures { IfOk result (λ moved. MatchOption moved (letter_step got.old.items b ≡ None)
        (λ next. letter_step got.old.items b ≡ Some (next, got.new.items))) }
{
    if b == b'u' {
        return Ok(Some(Piece::First { high: 0 }));
    }
    let Some(c) = short_escape(b) else {
        return Ok(None);
    };
    push_utf8(got, c)?;
    Ok(Some(Piece::Start))
}

fn first_fits(high: u32, value: u32) -> bool
    ensures { result ≡ first_fits high value }
{
    if high == 0 { true } else { value == 13 }
}

fn second_fits(high: u32, value: u32) -> bool
    ensures { result ≡ second_fits high value }
{
    let low = 220 <= value && value <= 223;
    if high == 0 { !low } else { low }
}

// The four digits are there.
fn unit_step(high: u32, got: &mut Vec<u8>, value: u32) -> Result<Piece, AllocError>
    requires high { high < 56320 }
    requires value { value < 65536 }
    ensures { IfOk result (λ next. unit_step high got.old.items value ≡ (next, got.new.items)) }
{
    if high == 0 {
        if 55296 <= value && value <= 56319 {
            return Ok(Piece::Backslash { high: value });
        }
        push_utf8(got, value)?;
        return Ok(Piece::Start);
    }
    push_utf8(
        got,
        65536 + high.saturating_sub(55296) * 1024 + value.saturating_sub(56320),
    )?;
    Ok(Piece::Start)
}

fn digit_step(piece: Piece, got: &mut Vec<u8>, digit: u32) -> Result<Option<Piece>, AllocError>
    requires fits { Fits piece }
    requires digit { digit < 16 }
    ensures { IfOk result (λ moved. MatchOption moved (digit_step piece got.old.items digit ≡ None)
        (λ next. digit_step piece got.old.items digit ≡ Some (next, got.new.items))) }
{
    match piece {
        Piece::First { high } => {
            if !first_fits(high, digit) {
                return Ok(None);
            }
            Ok(Some(Piece::Second { high, value: digit }))
        }
        Piece::Second { high, value } => {
            let value = value * 16 + digit;
            if !second_fits(high, value) {
                return Ok(None);
            }
            Ok(Some(Piece::Third { high, value }))
        }
        Piece::Third { high, value } => Ok(Some(Piece::Fourth {
            high,
            value: value * 16 + digit,
        })),
        Piece::Fourth { high, value } => Ok(Some(unit_step(high, got, value * 16 + digit)?)),
        _ => Ok(None),
    }
}

fn within_step(
    got: &mut Vec<u8>,
    b: u8,
    least: u8,
    most: u8,
    next: Piece,
) -> Result<Option<Piece>, AllocError>
    ensures { IfOk result (λ moved. MatchOption moved (between least most b ≡ false)
        (λ n. (between least most b ≡ true) × (n ≡ next)
        × (got.new.items ≡ got.old.items ++ b ∷ []))) }
{
    if between(least, most, b) {
        return keep_byte(got, b, next);
    }
    Ok(None)
}

/// One more byte of a text.
pub(crate) fn piece_step(
    piece: Piece,
    got: &mut Vec<u8>,
    b: u8,
) -> Result<Option<Piece>, AllocError>
    requires { Fits piece }
    ensures { IfOk result (λ moved. MatchOption moved (piece_step piece got.old.items b ≡ None)
        (λ next. piece_step piece got.old.items b ≡ Some (next, got.new.items))) }
{
    match piece {
        Piece::Start => start_step(got, b),
        Piece::Last => within_step(got, b, b'\x80', b'\xbf', Piece::Start),
        Piece::LastButOne { least, most } => within_step(got, b, least, most, Piece::Last),
        Piece::LastButTwo { least, most } => within_step(
            got,
            b,
            least,
            most,
            Piece::LastButOne {
                least: b'\x80',
                most: b'\xbf',
            },
        ),
        Piece::Letter => letter_step(got, b),
        Piece::Backslash { high } => {
            if b == b'\\' {
                return Ok(Some(Piece::U { high }));
            }
            Ok(None)
        }
        Piece::U { high } => {
            if b == b'u' {
                return Ok(Some(Piece::First { high }));
            }
            Ok(None)
        }
        _ => {
            let Some(digit) = hex_value(b) else {
                return Ok(None);
            };
            digit_step(piece, got, digit)
        }
    }
}
