//! What the value of a claim is.

ghost use Rattle.std.specs.Prelude.{◌≡◌};
ghost use Rattle.usp_base.specs.Numbers.{number_of};
ghost use Rattle.usp_claims.specs.Table.{has_kind, in_range, is_audience, whole_in};

use crate::{ClaimKind, MAX_NUMBER, MAX_PERIOD};
use usp_base::read_number;
use usp_json::Json;

/// The whole number that a value is, where it is spelled with digits alone and at most `MAX_NUMBER`.
pub fn whole_in(value: &Json) -> Option<u64>
    ensures { result ≡ whole_in MAX_NUMBER value.now }
{
    read_number(value.number()?, MAX_NUMBER)
}

// The same, at most `MAX_PERIOD`.
pub(crate) fn period_in(value: &Json) -> Option<u64>
    ensures { result ≡ whole_in MAX_PERIOD value.now }
{
    read_number(value.number()?, MAX_PERIOD)
}

// Whether a value is of that kind.
pub(crate) fn has_kind(kind: ClaimKind, value: &Json) -> bool
    ensures { result ≡ has_kind kind value.now }
{
    match kind {
        ClaimKind::Any => true,
        ClaimKind::Text => value.is_text(),
        ClaimKind::TextOrTexts => value.is_text() || value.is_texts(),
        ClaimKind::Number | ClaimKind::Period => value.number().is_some(),
    }
}

// Whether a value is in the range of that kind.
pub(crate) fn in_range(kind: ClaimKind, value: &Json) -> bool
    ensures { result ≡ in_range kind value.now }
{
    match kind {
        ClaimKind::Number => whole_in(value).is_some(),
        ClaimKind::Period => period_in(value).is_some(),
        _ => true,
    }
}

// Whether an audience is that identity, or a list that has it.
pub(crate) fn is_audience(value: &Json, identity: &[u8]) -> bool
    ensures { result ≡ is_audience identity.now value.now }
{
    value.is_this(identity) || value.lists(identity)
}
