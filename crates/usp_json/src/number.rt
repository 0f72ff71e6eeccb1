//! Numbers, kept as they were spelled.

ghost use Rattle.std.specs.Prelude.{◌≡◌, IfOk, true};
ghost use Rattle.std.specs.Fmt.{decimal};
ghost use Rattle.usp_json.specs.Grammar.{IsNumber};
ghost use Rattle.usp_json.specs.Number.{is_number};

use crate::NoMemory;
use std::alloc::Global;
use std::marker::Model;

/// A number as it was spelled (RFC 8259 section 6), which contracts see as its bytes.
#[derive(Debug, Drop)]
pub struct NumText {
    spelled: Vec<u8>,
}

impl Model for NumText {
    ghost use Rattle.std.specs.Prelude.{◌≡◌, List, ℕ, true};
    ghost use Rattle.std.specs.Coded.{coded_list, coded_ℕ};
    ghost use Rattle.usp_json.specs.Number.{is_number};

    ghost Value = { List ℕ };

    ghost coded = { coded_list coded_ℕ };

    ghost view = { λ n. n.spelled.items };

    ghost invariant = { λ n. is_number n.spelled.items ≡ true };
}

impl NumText {
    /// The number in decimal, without a leading zero.
    #[tactic(auto, using(crate::proofs::Numbers::decimal_is_number, crate::proofs::Numbers::is_number_sound))]
    pub fn whole(alloc: Global, number: u64) -> Result<NumText, NoMemory>
        ensures decimal { IfOk result (λ n. n ≡ decimal number) }
        ensures number { IfOk result (λ n. IsNumber n) }
    {
        let digits = number.to_string(alloc)?;
        Ok(NumText {
            spelled: digits.into_bytes(),
        })
    }

    /// The spelling.
    #[tactic(auto, using(crate::proofs::Numbers::is_number_sound))]
    pub fn text(&self) -> &[u8]
        ensures same { result.now ≡ self.now }
        ensures number { IsNumber self.now }
    {
        &self.spelled
    }

    /// The number of these bytes.
    pub(crate) fn from_bytes(bytes: Vec<u8>) -> NumText
        requires { is_number bytes.items ≡ true }
        ensures { result ≡ bytes.items }
    {
        NumText { spelled: bytes }
    }

    /// Another number of the same spelling.
    pub(crate) fn copy(&self, alloc: Global) -> Result<NumText, NoMemory>
        ensures { IfOk result (λ n. n ≡ self.now) }
    {
        Ok(NumText {
            spelled: Vec::from_slice(alloc, &self.spelled)?,
        })
    }
}
