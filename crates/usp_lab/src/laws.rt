//! Laws of the lab. Each is a theorem for the crates above.

ghost use Rattle.std.specs.Prelude.{◌≡◌, ◌<◌, ◌+◌, ◌^◌, ◌++◌, ◌∷◌, ◌↔◌, All, IfSome, List, None, Ok, Option, Some, [], codes, length, slice_get, true, ℕ};
ghost use Rattle.usp_base.specs.Lines.{line_feed, lines_of};
ghost use Rattle.usp_conf.specs.Values.{ConfValue};
ghost use Rattle.usp_edge.specs.Calls.{ArePlaces, calls_of};
ghost use Rattle.usp_edge.specs.Honest.{IsHonest};
ghost use Rattle.usp_edge.specs.declared.note.Note.{Note};
ghost use Rattle.usp_edge.specs.declared.note.Verdict.TheVariants.{Admitted};
ghost use Rattle.usp_http.specs.Finding.{IsHead};
ghost use Rattle.usp_nonce.specs.History.{IsLegal};
ghost use Rattle.usp_nonce.specs.Laws.{TakesNoNonceTwice};
ghost use Rattle.usp_package.specs.Name.{is_attr_name};
ghost use Rattle.usp_script.specs.Script.{IsScript, ScriptValue, attribute_of};
ghost use Rattle.usp_script.specs.declared.ask.LabAsk.{LabAsk};
ghost use Rattle.usp_trace.specs.Chains.{IsChain, IsIssued};
ghost use Rattle.usp_uri.specs.Faults.{normal_of};
ghost use Rattle.usp_edge.specs.Decided.{IsDecidedBy, Upholds};
ghost use Rattle.usp_lab.specs.Entries.{Entry, Run, Runs, content_of, ledger_of, served_in};
ghost use Rattle.usp_lab.specs.LabHead.{IsBorne, lab_head, lab_parts};
ghost use Rattle.usp_lab.specs.LabText.{AreLinks, IsLabText, ShowsAsk, ShowsOrigin, origin_of};
ghost use Rattle.usp_lab.specs.Noted.{IsOfAsk, IsPlain, NotesAsk};
ghost use Rattle.usp_lab.specs.Notes.{notes_at};
ghost use Rattle.usp_lab.specs.Provenance.{HasClaimsAt, IsProvenance, ledger_before};
ghost use Rattle.usp_lab.specs.Rounds.{IsServed, Served, calls_at};
ghost use Rattle.usp_lab.specs.Shown.{IsPrintable, NamesChain, ask_line};
ghost use Rattle.usp_lab.specs.Tokens.{carried_token};
ghost use Rattle.usp_lab.specs.Turns.{HasHistory, IsRun};

/// The bytes of an ask's connection are one whole head: a GET of the asked URI's path and query at its authority,
/// with one cookie or none, behind which the connection may go on. It keeps the limits on heads.
pub fn asks_by_whole_heads()
    ensures { (edge : ConfValue) (ask : LabAsk) (token : Option (List ℕ))
        → is_attr_name (attribute_of edge) ≡ true → normal_of ask.uri ≡ Ok ask.uri → IfSome token IsBorne
        → IsHead (lab_parts edge ask token) (lab_head edge ask token) [] }
{}

/// The note of an ask is of what was asked: of its URI, which is in normal form, with the scheme of the edge. Where
/// that is the URI's own and the URI has no package, the content is the ask's URI and the token is the one that the
/// ask carries.
pub fn notes_what_was_asked()
    ensures plain { (script : ScriptValue) (issued : List (Option (List ℕ))) (known : ℕ)
        (ask : LabAsk) (served : Served) → IsServed script issued known ask served
        → IsPlain served.edge ask (carried_token script issued ask.carried)
        → IsOfAsk served.edge ask (carried_token script issued ask.carried) served.note }
    ensures any { (script : ScriptValue) (issued : List (Option (List ℕ))) (known : ℕ) (ask : LabAsk)
        (served : Served) → IsServed script issued known ask served
        → is_attr_name (attribute_of served.edge) ≡ true → normal_of ask.uri ≡ Ok ask.uri
        → IfSome (carried_token script issued ask.carried) IsBorne
        → NotesAsk served.edge ask (carried_token script issued ask.carried) served.note }
{}

/// The ledger of a run is sound, and its grants are the script's. Each admitted ask whose token was in the ledger as
/// its round began traces through renewals and redirections to one grant, whose container, audience and window it met.
pub fn traces_to_grants()
    ensures { (script : ScriptValue) (run : Run) → IsScript script → Runs script run
        → IsProvenance script run }
{}

/// Each token of the chain of an admitted ask has claims.
pub fn has_claims_along_the_chain()
    ensures { (script : ScriptValue) (run : Run) → IsScript script → Runs script run
        → (number place : ℕ) (served : Served) (places : List ℕ)
        → slice_get (served_in run) number ≡ Some served → served.note.verdict ≡ Admitted
        → origin_of run served ≡ Some place → IsChain (ledger_of run.entries) place places
        → All (HasClaimsAt run.entries) places }
{}

/// An admitted ask brought a token, for a content. Of a token that an ask brought there is no place exactly where it
/// was not issued before the ask's round.
pub fn brings_its_token()
    ensures token { (script : ScriptValue) (run : Run) → IsScript script → Runs script run
        → (number : ℕ) (served : Served) → slice_get (served_in run) number ≡ Some served
        → served.note.verdict ≡ Admitted → (token : List ℕ) × (served.note.token ≡ Some token) }
    ensures content { (script : ScriptValue) (run : Run) → IsScript script → Runs script run
        → (number : ℕ) (served : Served) → slice_get (served_in run) number ≡ Some served
        → served.note.verdict ≡ Admitted
        → (content : List ℕ) × (content_of served.edge served.note ≡ Some content) }
    ensures untraced { (run : Run) (served : Served) (token : List ℕ)
        → served.note.token ≡ Some token
        → (origin_of run served ≡ None) ↔ (IsIssued (ledger_before run served) token → ⊥) }
{}

/// The text of a run, cut into lines, has the line of each ask at the place of the ask.
pub fn has_a_line_for_each_ask()
    ensures { (script : ScriptValue) (run : Run) (text : List ℕ) → IsScript script → Runs script run
        → IsLabText script.edges run text → (number : ℕ) (served : Served)
        → slice_get (served_in run) number ≡ Some served
        → (told : List ℕ) × (slice_get (lines_of text) number ≡ Some told)
        × ShowsAsk run (number + 1) served (told ++ line_feed ∷ []) }
{}

/// One line says one thing: two asks, of whatever runs, whose lines are one text have one number, edges of one name,
/// and one verdict, status, nonce call and chain, as far as a line shows them, where numbers have at most 64 bits.
pub fn says_one_thing()
    ensures { (run another : Run) (number other : ℕ) (one two : Served) (text : List ℕ)
        → IsPrintable number one → IsPrintable other two
        → (shows : ShowsAsk run number one text) (tells : ShowsAsk another other two text)
        → ask_line number one shows.origin ≡ ask_line other two tells.origin }
{}

/// The links of a line name one chain of the ledger, where the number of grants has at most 64 bits.
pub fn names_one_chain()
    ensures { (script : ScriptValue) (run : Run) → IsScript script → Runs script run
        → run.grants < 2 ^ 64 → (places others text : List ℕ)
        → AreLinks run.entries places text → AreLinks run.entries others text → places ≡ others }
{}

/// The line of an admitted ask names the one chain of the first place of its token, from a grant to that token, and
/// says `untraced` exactly where there is no such place. No two places have one label.
pub fn names_the_chain_shown()
    ensures chain { (run : Run) (served : Served) (place : ℕ) (token text : List ℕ)
        → served.note.verdict ≡ Admitted → served.note.token ≡ Some token
        → origin_of run served ≡ Some place → ShowsOrigin run served served.note.verdict text
        → NamesChain run.entries place token text }
    ensures untraced { (run : Run) (served : Served) (text : List ℕ)
        → served.note.verdict ≡ Admitted → ShowsOrigin run served served.note.verdict text
        → (text ≡ codes " chain untraced") ↔ (origin_of run served ≡ None) }
    ensures labels { (script : ScriptValue) (run : Run) → Runs script run → (a b : ℕ)
        (one other : Entry) → slice_get run.entries a ≡ Some one
        → slice_get run.entries b ≡ Some other → one.label ≡ other.label → a ≡ b }
{}

/// The note of each ask is of its edge and its moment, and honest. It is decided by the ask's own nonce calls: one of
/// rules 1 to 15 denied it and no call was made, or these rules hold and the calls decided it.
pub fn decides_each_ask()
    ensures edge { (script : ScriptValue) (run : Run) → IsScript script → Runs script run
        → (number : ℕ) (served : Served) → slice_get (served_in run) number ≡ Some served
        → slice_get script.edges served.ask.edge ≡ Some served.edge }
    ensures moment { (script : ScriptValue) (run : Run) → IsScript script → Runs script run
        → (number : ℕ) (served : Served) → slice_get (served_in run) number ≡ Some served
        → served.note.moment ≡ served.ask.moment }
    ensures honest { (script : ScriptValue) (run : Run) → IsScript script → Runs script run
        → (number : ℕ) (served : Served) → slice_get (served_in run) number ≡ Some served
        → IsHonest served.edge served.note }
    ensures decided { (script : ScriptValue) (run : Run) → IsScript script → Runs script run
        → (number : ℕ) (served : Served) → slice_get (served_in run) number ≡ Some served
        → IsDecidedBy served.edge served.note served.calls }
{}

/// The notes of each edge are decided over the one legal history of its nonce calls, by however many workers the
/// script was run: a request is admitted exactly where rules 1 to 15 hold and the history has its nonce taken at its
/// place, where it has one; each denial names the first rule that fails. No nonce is taken twice while it is held.
pub fn upholds_each_history()
    ensures upholds { (script : ScriptValue) (workers : ℕ) (run : Run) → IsScript script
        → IsRun script workers run → (place : ℕ) (edge : ConfValue)
        → slice_get script.edges place ≡ Some edge
        → Upholds edge (length (calls_at place (served_in run))) (notes_at place (served_in run)) }
    ensures once { (conf : ConfValue) (n : ℕ) (notes : List Note) (upholds : Upholds conf n notes)
        → TakesNoNonceTwice upholds.history }
{}

/// With one worker the nonce calls of each edge have the places 0, 1, 2 and so on in the order of the asks, and they
/// are its history.
pub fn goes_in_order_with_one_worker()
    ensures places { (run : Run) (place : ℕ) (edge : ConfValue) → HasHistory 1 run place edge
        → ArePlaces 0 (calls_at place (served_in run)) }
    ensures legal { (run : Run) (place : ℕ) (edge : ConfValue) → HasHistory 1 run place edge
        → IsLegal edge.room (calls_of (calls_at place (served_in run))) }
{}
