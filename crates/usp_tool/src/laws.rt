//! Laws of the commands.
ghost use Rattle.std.specs.Prelude.{◌≡◌, ◌⊎◌, ◌≤◌, ◌+◌, List, [], ◌∷◌, ℕ, length, Option, Some, false, true};
ghost use Rattle.std.specs.List.{All};
ghost use Rattle.std.specs.Option.{is_some};
ghost use Rattle.usp_base.specs.declared.fault.Status.TheVariants.{Done, Denials};
ghost use Rattle.usp_claims.specs.declared.limits.TheConstants.{MAX_PAYLOAD};
ghost use Rattle.usp_conf.specs.Readings.{Configures};
ghost use Rattle.usp_conf.specs.Values.{ConfValue};
ghost use Rattle.usp_jws.specs.Keys.{KeyValue, key_named};
ghost use Rattle.usp_nonce.specs.History.{Call};
ghost use Rattle.usp_package.specs.Package.{package_of};
ghost use Rattle.usp_rules.specs.Asks.{content_in};
ghost use Rattle.usp_rules.specs.Rules.{AllHold, Holds};
ghost use Rattle.usp_rules.specs.declared.profile.Profile.{Profile};
ghost use Rattle.usp_rules.specs.declared.rule.Rule.TheVariants as rule;
ghost use Rattle.usp_tool.specs.Answers.{HasOutcome};
ghost use Rattle.usp_tool.specs.Check.{Checks};
ghost use Rattle.usp_tool.specs.Check.Line.{ask_of};
ghost use Rattle.usp_base.specs.Lines.{lines_of};
ghost use Rattle.usp_tool.specs.Input.{is_long_input};
ghost use Rattle.usp_tool.specs.Outcome.{Outcome};
ghost use Rattle.usp_tool.specs.Sign.{SignsAll, SignsEach};
ghost use Rattle.usp_tool.specs.Sign.Line.{SignsLine, payload_for};
ghost use Rattle.usp_tool.specs.Words.{Command, check, sign};
ghost use Rattle.usp_tool.specs.declared.limits.TheConstants.{MAX_CONNECTIONS, MAX_INPUT, MAX_LINE, MAX_WORKERS};

use usp_base::MOMENT_BOUND;
use usp_claims::MAX_NUMBER;
use usp_nonce::{MAX_UNTIL, MOMENT_LIMIT};

/// Under a configuration, lines of which each is an ask are all judged, and lines for each of which something
/// is signed are all signed: in an input that is not too long, only a line of another form is refused.
pub fn lines_in_their_grammar_are_answered()
    ensures judged { (name conf input : List ℕ) (value : ConfValue) (outcome : Outcome)
        → Configures conf value → HasOutcome (check name) conf (Some input) outcome
        → is_long_input input ≡ false → All (λ line. is_some (ask_of line) ≡ true) (lines_of input)
        → (outcome.status ≡ Done) ⊎ (outcome.status ≡ Denials) }
    ensures signed { (name kid conf input : List ℕ) (value : ConfValue) (key : KeyValue)
        (outcome : Outcome) → Configures conf value
        → key_named value.site.profile.ring kid ≡ Some key
        → HasOutcome (sign name kid) conf (Some input) outcome → is_long_input input ≡ false
        → All (λ line. (text : List ℕ) × SignsLine value.site.profile.attribute key line text)
        (lines_of input)
        → outcome.status ≡ Done }
{}

/// What `sign` prints where it ends with 0 is a text for each line. Each keeps the checker's first six rules
/// under the same configuration, with any cookie and at any moment, where the claims are short enough as they
/// are sealed, and admits the normal form of the line's URI.
pub fn signed_passes()
    ensures each { (name kid conf input : List ℕ) (value : ConfValue) (key : KeyValue)
        (outcome : Outcome) → Configures conf value
        → key_named value.site.profile.ring kid ≡ Some key
        → HasOutcome (sign name kid) conf (Some input) outcome → outcome.status ≡ Done
        → (texts : List (List ℕ))
        × SignsEach value.site.profile.attribute key (lines_of input) texts outcome.text }
    ensures rules { (conf kid line text : List ℕ) (value : ConfValue) (key : KeyValue)
        (cookie : Option (List ℕ)) (moment : ℕ)
        (s : SignsLine value.site.profile.attribute key line text) → Configures conf value
        → key_named value.site.profile.ring kid ≡ Some key
        → length (payload_for s.uri s.members) ≤ MAX_PAYLOAD
        → AllHold
        (λ r. Holds r value.site.profile (record { uri = text; cookie = cookie; moment = moment }))
        (rule.Uri ∷ rule.Missing ∷ rule.Package ∷ rule.Header ∷ rule.Signature ∷ rule.Claims ∷ []) }
    ensures content { (conf kid line text : List ℕ) (value : ConfValue) (key : KeyValue)
        (s : SignsLine value.site.profile.attribute key line text) → Configures conf value
        → key_named value.site.profile.ring kid ≡ Some key
        → content_in text (package_of value.site.profile.attribute text) ≡ Some s.uri }
{}

/// Lines have one outcome, and leave one list of nonce calls behind them. So a command, a configuration and an
/// input have one.
pub fn one_outcome()
    ensures checked { (profile : Profile) (room number : ℕ) (calls : List Call)
        (lines : List (List ℕ)) (o p : Outcome) (a b : List Call)
        → Checks profile room number calls lines o a → Checks profile room number calls lines p b
        → (o ≡ p) × (a ≡ b) }
    ensures signed { (attribute : List ℕ) (key : KeyValue) (number : ℕ) (lines : List (List ℕ))
        (o p : Outcome) → SignsAll attribute key number lines o
        → SignsAll attribute key number lines p → o ≡ p }
    ensures answered { (command : Command) (conf input : List ℕ) (o p : Outcome)
        → HasOutcome command conf (Some input) o → HasOutcome command conf (Some input) p → o ≡ p }
{}

/// Which number each limit is.
pub fn limits_are_told()
    ensures line { MAX_LINE ≡ 32768 }
    ensures input { MAX_INPUT ≡ 16777216 }
    ensures workers { MAX_WORKERS ≡ 16 }
    ensures connections { MAX_CONNECTIONS ≡ 100000 }
{}

/// What two crates say of one thing is one number: each moment of a request is one of the nonce table, and a nonce
/// without an `exp` is held beyond each second that an `exp` can name.
pub fn limits_agree()
    ensures moments { MOMENT_LIMIT ≡ MOMENT_BOUND }
    ensures ends { MAX_UNTIL ≡ MAX_NUMBER + 1 }
{}
