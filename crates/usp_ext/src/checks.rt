//! The five tests as plain functions, from which a caller makes its kit.

ghost use Rattle.std.specs.Prelude.{◌≡◌};
ghost use Rattle.usp_ext.specs.Values.{begins, is_number_up_to};
ghost use Rattle.usp_ext.specs.Tests.{means, is_text_of};
ghost use Rattle.usp_ext.specs.declared.kinds.TestKind.{TestKind};

use crate::Setting;
use usp_claims::{MAX_NUMBER, whole_in};
use usp_json::{Items, Json};

// Whether the value is a text with which the path begins.
fn begins(value: &Json, path: &[u8]) -> bool
    ensures { result ≡ begins path.now value.now }
{
    match value.text() {
        None => false,
        Some(text) => path.starts_with(text),
    }
}

// Whether the value is such a number, at most that.
fn is_number_up_to(value: &Json, most: u64) -> bool
    ensures { result ≡ is_number_up_to most value.now }
{
    match whole_in(value) {
        None => false,
        Some(number) => number <= most,
    }
}

// Whether the value is a text of the list, which has texts alone.
fn is_text_of(items: &Items, value: &Json) -> bool
    ensures { result ≡ is_text_of items.now.values value.now }
{
    match value.text() {
        None => false,
        Some(text) => items.are_texts() && items.has_text(text),
    }
}

/// The test `Any`.
pub fn is_any(setting: &Setting, value: &Json, path: &[u8], _moment: u64) -> bool
    ensures { result ≡ means TestKind.Any setting.now value.now path.now }
{
    matches!(setting, Setting::Nothing)
}

/// The test `Equals`.
pub fn equals(setting: &Setting, value: &Json, path: &[u8], _moment: u64) -> bool
    ensures { result ≡ means TestKind.Equals setting.now value.now path.now }
{
    match setting {
        Setting::Words(text) => value.is_this(text.text().as_bytes()),
        _ => false,
    }
}

/// The test `OneOf`.
pub fn is_one_of(setting: &Setting, value: &Json, path: &[u8], _moment: u64) -> bool
    ensures { result ≡ means TestKind.OneOf setting.now value.now path.now }
{
    match setting {
        Setting::Several(items) => is_text_of(items, value),
        _ => false,
    }
}

/// The test `AtMost`.
pub fn is_at_most(setting: &Setting, value: &Json, path: &[u8], _moment: u64) -> bool
    ensures { result ≡ means TestKind.AtMost setting.now value.now path.now }
{
    match setting {
        Setting::Number(most) => *most <= MAX_NUMBER && is_number_up_to(value, *most),
        _ => false,
    }
}

/// The test `PathPrefix`.
pub fn is_path_prefix(setting: &Setting, value: &Json, path: &[u8], _moment: u64) -> bool
    ensures { result ≡ means TestKind.PathPrefix setting.now value.now path.now }
{
    match setting {
        Setting::Nothing => begins(value, path),
        _ => false,
    }
}
