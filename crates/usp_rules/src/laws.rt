//! Laws of the rules, of what passes them, and of segments.
ghost use Rattle.std.specs.Prelude.{◌≡◌, ◌↔◌, [], ◌∷◌, map, List, ℕ, Option, Some, None, Ok, IsAscii, length};
ghost use Rattle.usp_uri.specs.Faults.{normal_of};
ghost use Rattle.usp_rules.specs.Asks.{AskValue, Presented, presented};
ghost use Rattle.usp_rules.specs.Judging.{Admits, Judges};
ghost use Rattle.usp_rules.specs.Names.{number_of};
ghost use Rattle.usp_rules.specs.Rules.{AllHold, Breaks, First, Holds, TokenHolds, Valid, rules_of_ask};
ghost use Rattle.usp_json.specs.declared.value.Members.{Members};
ghost use Rattle.usp_rules.specs.Segment.{segment_of};
ghost use Rattle.usp_rules.specs.declared.judged.Judged.{Judged};
ghost use Rattle.usp_rules.specs.declared.judged.Judged.TheVariants.{Passed};
ghost use Rattle.usp_rules.specs.declared.limits.TheConstants.{SEGMENT_LEN};
ghost use Rattle.usp_rules.specs.declared.profile.Profile.{Profile};
ghost use Rattle.usp_rules.specs.declared.rule.Rule.{Rule};
ghost use Rattle.usp_rules.specs.declared.rule.Rule.TheVariants as rule;

/// An ask has one first rule that fails, and one verdict: the rule, or the content, the token, its claims
/// and the key's place.
pub fn one_verdict()
    ensures first { (profile : Profile) (ask : AskValue) (a b : Option Rule)
        → First profile ask a → First profile ask b → a ≡ b }
    ensures verdict { (profile : Profile) (ask : AskValue) (a b : Judged)
        → Judges profile ask a → Judges profile ask b → a ≡ b }
{}

/// The first rule that fails is the listed one that does not hold while each before it does. They are
/// listed by their numbers.
pub fn names_the_first_that_fails()
    ensures order { map number_of rules_of_ask
        ≡ 1 ∷ 2 ∷ 3 ∷ 4 ∷ 5 ∷ 6 ∷ 7 ∷ 8 ∷ 9 ∷ 10 ∷ 11 ∷ 12 ∷ 13 ∷ 14 ∷ 15 ∷ [] }
    ensures first { (profile : Profile) (ask : AskValue) (broken : Rule)
        → First profile ask (Some broken)
        ↔ Breaks (λ rule. Holds rule profile ask) rules_of_ask broken }
{}

/// No rule fails exactly where each holds, and that is where the URI has a normal form and what is
/// presented is valid.
pub fn passes_what_is_valid()
    ensures all { (profile : Profile) (ask : AskValue)
        → First profile ask None ↔ AllHold (λ rule. Holds rule profile ask) rules_of_ask }
    ensures normal { (profile : Profile) (ask : AskValue) → First profile ask None
        → (normal : List ℕ) × (normal_of ask.uri ≡ Ok normal) }
    ensures valid { (profile : Profile) (ask : AskValue) → First profile ask None
        → (shown : Presented) × (presented profile.attribute ask ≡ Some shown)
        × Valid profile shown }
    ensures passes { (profile : Profile) (ask : AskValue) (normal : List ℕ) (shown : Presented)
        → normal_of ask.uri ≡ Ok normal → presented profile.attribute ask ≡ Some shown
        → Valid profile shown → First profile ask None }
{}

/// What is told of an ask that passes: it brings the token, for the content, and the token is valid at its
/// moment.
pub fn admits_what_passes()
    ensures { (profile : Profile) (ask : AskValue) (content token : List ℕ) (members : Members)
        (place : ℕ) → Judges profile ask (Passed content token members place)
        → Admits profile ask content token members place }
{}

/// The rules before Package and behind Container hold of no token: they are none of a token alone.
pub fn others_are_no_rules_of_tokens()
    ensures uri { (profile : Profile) (shown : Presented) → TokenHolds rule.Uri profile shown → ⊥ }
    ensures missing { (profile : Profile) (shown : Presented)
        → TokenHolds rule.Missing profile shown → ⊥ }
    ensures late { (profile : Profile) (shown : Presented)
        → TokenHolds rule.Late profile shown → ⊥ }
    ensures seen { (profile : Profile) (shown : Presented)
        → TokenHolds rule.Seen profile shown → ⊥ }
    ensures room { (profile : Profile) (shown : Presented)
        → TokenHolds rule.Room profile shown → ⊥ }
{}

/// A segment is ASCII, and as long as each other.
pub fn segments_are_ascii()
    ensures ascii { (text : List ℕ) → IsAscii (segment_of text) }
    ensures length { (text : List ℕ) → length (segment_of text) ≡ SEGMENT_LEN }
{}

/// The limit, as a number.
pub fn limits_are_told()
    ensures { SEGMENT_LEN ≡ 51 }
{}
