//! Laws of claim sets. Each is a theorem for the crates above.

ghost use Rattle.std.specs.Prelude.{◌≡◌, ◌≢◌, ◌+◌, ◌*◌, ◌^◌, ◌≤◌, List, ℕ, Some, None, true, false, length, slice_get};
ghost use Rattle.std.specs.Fmt.{decimal};
ghost use Rattle.std.specs.Option.{is_some};
ghost use Rattle.usp_json.specs.Canon.{canon, canon_members};
ghost use Rattle.usp_json.specs.Entries.{entries, place_of};
ghost use Rattle.usp_json.specs.Kept.{Keeps, KeepsLimits, KeepsWithin};
ghost use Rattle.usp_json.specs.Spells.{IsReading, given, has_name, with_a_member_more};
ghost use Rattle.usp_json.specs.declared.value.Json.{Json};
ghost use Rattle.usp_json.specs.declared.value.Json.TheVariants.{Num, Str};
ghost use Rattle.usp_json.specs.declared.value.Members.{Members};
ghost use Rattle.usp_claims.specs.Changes.{with_claim};
ghost use Rattle.usp_claims.specs.Faults.{RefusesClaims};
ghost use Rattle.usp_claims.specs.Table.{IsClaimSet, claim, has_kind, in_range, name_of, number_claim, row, rows};
ghost use Rattle.usp_claims.specs.declared.table.ClaimKind.TheVariants.{Number, Text};
ghost use Rattle.usp_claims.specs.declared.table.ClaimName.{ClaimName};
ghost use Rattle.usp_claims.specs.declared.table.ClaimName.TheVariants.{Aud, Exp, Iat, Iss, Uc};
ghost use Rattle.usp_claims.specs.declared.table.Row.{Row};
ghost use Rattle.usp_claims.specs.declared.fault.ClaimFault.{ClaimFault};
ghost use Rattle.usp_claims.specs.declared.fault.ClaimFault.TheVariants.{NoMemory};

use crate::{MAX_CANONICAL, MAX_NUMBER, MAX_PAYLOAD, MAX_PERIOD};
use usp_json::MAX_MEMBERS;

/// The numbers of the limits.
pub fn limits_are_told()
    ensures payload { MAX_PAYLOAD ≡ 4096 }
    ensures canonical { MAX_CANONICAL ≡ 6000 }
    ensures number { MAX_NUMBER + 1 ≡ 2 ^ 53 }
    ensures period { MAX_PERIOD ≡ 2 ^ 52 }
{}

/// What `read_claims` refuses, but for want of memory, spells no claim set within the limits, so it accepts each.
pub fn refused_are_no_claim_sets()
    ensures { (fault : ClaimFault) (payload : List ℕ) (m : Members) → RefusesClaims fault payload
        → fault ≢ NoMemory → length payload ≤ MAX_PAYLOAD → IsReading payload m → IsClaimSet m → ⊥ }
{}

/// A claim that is given a value has it, and each other claim is as it was. A value that its row allows leaves a claim
/// set, and so do a text and a number of `MAX_NUMBER` or less where the row asks for one. Members within the limits
/// keep them where the value does and no more than `MAX_MEMBERS` are left. The canonical text grows by at most the
/// name, four bytes and the value's own.
pub fn changes_one_claim()
    ensures this { (name : ClaimName) (value : Json) (m : Members)
        → claim (name_of name) (with_claim name value m) ≡ Some value }
    ensures others { (name : ClaimName) (other : List ℕ) (value : Json) (m : Members)
        → other ≢ name_of name → claim other (with_claim name value m) ≡ claim other m }
    ensures set { (place : ℕ) (row : Row) (value : Json) (m : Members)
        → slice_get rows place ≡ Some row
        → has_kind row.kind value ≡ true → in_range row.kind value ≡ true
        → IsClaimSet m → IsClaimSet (with_claim row.name value m) }
    ensures text { (place : ℕ) (name : ClaimName) (bytes : List ℕ) (m : Members)
        → slice_get rows place ≡ Some (row name Text) → IsClaimSet m
        → IsClaimSet (with_claim name (Str bytes) m) }
    ensures number { (place : ℕ) (name : ClaimName) (n : ℕ) (m : Members)
        → slice_get rows place ≡ Some (row name Number) → n ≤ MAX_NUMBER → IsClaimSet m
        → IsClaimSet (with_claim name (Num (decimal n)) m)
        × (number_claim (name_of name) (with_claim name (Num (decimal n)) m) ≡ Some n) }
    ensures limits { (name : ClaimName) (value : Json) (m : Members) → KeepsLimits m
        → Keeps given given.levels value → length (entries (with_claim name value m)) ≤ MAX_MEMBERS
        → KeepsLimits (with_claim name value m) }
    ensures growth { (name : ClaimName) (value : Json) (m : Members)
        → length (canon_members (with_claim name value m))
        ≤ length (canon_members m) + length (name_of name) + 4 + length (canon value) }
{}

/// A claim set stays one with another text for `iss`, `aud` or `cdniuc`, and with another number, of `MAX_NUMBER` or
/// less, for `exp` or `iat`: these are what a renewed token, or one that is signed again, changes.
pub fn stays_a_claim_set()
    ensures iss { (bytes : List ℕ) (m : Members) → IsClaimSet m
        → IsClaimSet (with_claim Iss (Str bytes) m) }
    ensures aud { (bytes : List ℕ) (m : Members) → IsClaimSet m
        → IsClaimSet (with_claim Aud (Str bytes) m) }
    ensures uc { (bytes : List ℕ) (m : Members) → IsClaimSet m
        → IsClaimSet (with_claim Uc (Str bytes) m) }
    ensures exp { (n : ℕ) (m : Members) → n ≤ MAX_NUMBER → IsClaimSet m
        → IsClaimSet (with_claim Exp (Num (decimal n)) m) }
    ensures iat { (n : ℕ) (m : Members) → n ≤ MAX_NUMBER → IsClaimSet m
        → IsClaimSet (with_claim Iat (Num (decimal n)) m) }
{}

/// Members within the limits are no more than `MAX_MEMBERS`. A claim that is there leaves as many, and so the limits
/// are kept; any claim leaves the members within the limits with a member more.
pub fn counts_the_members()
    ensures few { (m : Members) → KeepsLimits m → length (entries m) ≤ MAX_MEMBERS }
    ensures same { (name : ClaimName) (value : Json) (m : Members)
        → is_some (claim (name_of name) m) ≡ true
        → length (entries (with_claim name value m)) ≡ length (entries m) }
    ensures there { (name : ClaimName) (value : Json) (m : Members)
        → is_some (claim (name_of name) m) ≡ true
        → KeepsLimits m → Keeps given given.levels value → KeepsLimits (with_claim name value m) }
    ensures wider { (name : ClaimName) (value : Json) (m : Members)
        → KeepsLimits m → Keeps given given.levels value
        → KeepsWithin with_a_member_more (with_claim name value m) }
    ensures fresh { (name : ClaimName) (m : Members) → place_of (name_of name) m.names ≡ None
        → has_name (name_of name) m.names ≡ false }
{}

/// How long the values of changed claims are: a number of `MAX_NUMBER` or less, and a text.
pub fn bounds_the_values()
    ensures number { (n : ℕ) → n ≤ MAX_NUMBER → length (canon (Num (decimal n))) ≤ 16 }
    ensures text { (bytes : List ℕ) → length (canon (Str bytes)) ≤ 6 * length bytes + 2 }
{}
