//! Laws of the definitions. Each is a theorem for the crates above.

ghost use Rattle.std.specs.Prelude.{◌≡◌, ◌+◌, ◌<◌, ℕ, List, [], ◌∷◌, ◌++◌, false, true, length, slice_set};
ghost use Rattle.std.specs.Str.{IsUtf8};
ghost use Rattle.std.specs.List.{list_all};
ghost use Rattle.usp_json.specs.declared.value.Json.{Json};
ghost use Rattle.usp_json.specs.declared.value.Json.TheVariants.{Num, Str};
ghost use Rattle.usp_json.specs.declared.value.Members.{Members};
ghost use Rattle.usp_json.specs.Canon.{canon, canon_members};
ghost use Rattle.usp_json.specs.Entries.{members_of};
ghost use Rattle.usp_json.specs.Grammar.{IsBytes, IsNumber, is_unescaped};
ghost use Rattle.usp_json.specs.Kept.{Keeps, KeepsLimits, KeepsWithin};
ghost use Rattle.usp_json.specs.Signs.{quotation_mark};
ghost use Rattle.usp_json.specs.Spells.{IsReading, IsReadingWithin, Limits, given, has_name, with_a_member_more};

use crate::{MAX_LEVELS, MAX_MEMBERS};

/// The numbers of the limits.
pub fn limits_are_told()
    ensures levels { (MAX_LEVELS ≡ 16) × (given.levels ≡ 15) }
    ensures members { (MAX_MEMBERS ≡ 64) × (given.members ≡ 64) }
    ensures names { given.distinct ≡ true }
{}

/// No text has two readings, and the canonical text of members within the limits is read as those members.
pub fn reads_once()
    ensures once { (text : List ℕ) (m k : Members) → IsReading text m → IsReading text k → m ≡ k }
    ensures canonical { (m : Members) → KeepsLimits m → IsReading (canon_members m) m }
{}

/// What was read keeps the limits, so that its canonical text is read as the same.
pub fn reads_keep_the_limits()
    ensures keeps { (text : List ℕ) (m : Members) → IsReading text m → KeepsLimits m }
    ensures again { (text : List ℕ) (m : Members) → IsReading text m
        → IsReading (canon_members m) m }
{}

/// Members within the limits keep them where a value within them takes the place of another, or comes last under a
/// name that they don't have. Each text and each number is such a value.
pub fn changes_keep_the_limits()
    ensures set { (names : List (List ℕ)) (values : List Json) (place : ℕ) (value : Json)
        → KeepsLimits (members_of names values) → Keeps given given.levels value
        → KeepsLimits (members_of names (slice_set values place value)) }
    ensures pushed { (names : List (List ℕ)) (values : List Json) (name : List ℕ) (value : Json)
        → KeepsLimits (members_of names values) → Keeps given given.levels value
        → IsUtf8 name → has_name name names ≡ false → length names < MAX_MEMBERS
        → KeepsLimits (members_of (names ++ name ∷ []) (values ++ value ∷ [])) }
    ensures text { (levels : ℕ) (bytes : List ℕ) → IsUtf8 bytes → Keeps given levels (Str bytes) }
    ensures number { (levels : ℕ) (spelled : List ℕ) → IsNumber spelled
        → Keeps given levels (Num spelled) }
{}

/// Within any limits: no text has two readings, the canonical text of members that keep them is read as those members,
/// and what was read keeps them.
pub fn reads_back_within_any_limits()
    ensures once { (limits : Limits) (text : List ℕ) (m k : Members) → IsReadingWithin limits text m
        → IsReadingWithin limits text k → m ≡ k }
    ensures canonical { (limits : Limits) (m : Members) → KeepsWithin limits m
        → IsReadingWithin limits (canon_members m) m }
    ensures keeps { (limits : Limits) (text : List ℕ) (m : Members) → IsReadingWithin limits text m
        → KeepsWithin limits m }
{}

/// What is within the limits is within them with a member more, and so is what gets a member more under a name that it
/// doesn't have.
pub fn leaves_room_for_a_member_more()
    ensures read { (text : List ℕ) (m : Members) → IsReading text m
        → IsReadingWithin with_a_member_more text m }
    ensures kept { (m : Members) → KeepsLimits m → KeepsWithin with_a_member_more m }
    ensures pushed { (names : List (List ℕ)) (values : List Json) (name : List ℕ) (value : Json)
        → KeepsLimits (members_of names values) → Keeps given given.levels value
        → IsUtf8 name → has_name name names ≡ false
        → KeepsWithin with_a_member_more (members_of (names ++ name ∷ []) (values ++ value ∷ [])) }
{}

/// What is read, within any limits, is bytes.
pub fn reads_bytes()
    ensures { (limits : Limits) (text : List ℕ) (m : Members) → IsReadingWithin limits text m
        → IsBytes text }
{}

/// A text without quotes, backslashes and control characters is its own canonical text, in quotes.
pub fn keeps_unescaped_texts()
    ensures text { (bytes : List ℕ) → list_all is_unescaped bytes ≡ true
        → canon (Str bytes) ≡ quotation_mark ∷ (bytes ++ quotation_mark ∷ []) }
    ensures length { (bytes : List ℕ) → list_all is_unescaped bytes ≡ true
        → length (canon (Str bytes)) ≡ length bytes + 2 }
{}
