//! Laws of sessions. Each is a theorem for the crates above.

ghost use Rattle.std.specs.Prelude.{◌≡◌, ◌≤◌, ◌⊎◌, List, length, ℕ};
ghost use Rattle.httparse.specs.Grammar.{EndsInTarget};
ghost use Rattle.usp_conf.specs.Values.{ConfValue};
ghost use Rattle.usp_http.specs.Finding.{Stop, front};
ghost use Rattle.usp_edge.specs.Halts.{StarvedSession, BrokenSession};
ghost use Rattle.usp_edge.specs.Honest.{AreHonest, AreMoments, AreShown};
ghost use Rattle.usp_edge.specs.Once.{MeetAlike};
ghost use Rattle.usp_edge.specs.Session.{Progress, Session};
ghost use Rattle.usp_edge.specs.declared.end.End.{End};
ghost use Rattle.usp_edge.specs.declared.limits.TheConstants.{MAX_HEADS};

/// The notes of a connection are honest, however it ends: each is of an ask and has its verdict, an admitted one
/// brought a token that is valid at the edge, and what was issued was issued for that token, its content and its
/// moment, behind a nonce call that took the nonce, where there was one.
pub fn notes_honestly()
    ensures session { (conf : ConfValue) (bytes : List ℕ) (stop : Stop) (progress : Progress) (ends : End)
        → Session conf bytes stop progress ends → AreHonest conf progress.notes }
    ensures writes { (conf : ConfValue) (bytes : List ℕ) (stop : Stop) (progress : Progress) (text : List ℕ)
        → BrokenSession conf bytes stop progress text → AreHonest conf progress.notes }
    ensures wants { (conf : ConfValue) (bytes : List ℕ) (progress : Progress) → StarvedSession conf bytes progress
        → AreHonest conf progress.notes }
{}

/// The nonce calls of a connection are those that its notes show, in their order, however it ends. Its moments are
/// those of its notes, but for one at which memory may have run out.
pub fn notes_its_calls()
    ensures session { (conf : ConfValue) (bytes : List ℕ) (stop : Stop) (progress : Progress) (ends : End)
        → Session conf bytes stop progress ends
        → AreShown progress.calls progress.notes × AreMoments progress.moments progress.notes }
    ensures writes { (conf : ConfValue) (bytes : List ℕ) (stop : Stop) (progress : Progress) (text : List ℕ)
        → BrokenSession conf bytes stop progress text
        → AreShown progress.calls progress.notes × AreMoments progress.moments progress.notes }
    ensures wants { (conf : ConfValue) (bytes : List ℕ) (progress : Progress) → StarvedSession conf bytes progress
        → AreShown progress.calls progress.notes }
{}

/// A connection makes at most one nonce call for each head that it may have, however it ends.
pub fn limits_its_calls()
    ensures session { (conf : ConfValue) (bytes : List ℕ) (stop : Stop) (progress : Progress) (ends : End)
        → Session conf bytes stop progress ends → length progress.calls ≤ MAX_HEADS }
    ensures writes { (conf : ConfValue) (bytes : List ℕ) (stop : Stop) (progress : Progress) (text : List ℕ)
        → BrokenSession conf bytes stop progress text → length progress.calls ≤ MAX_HEADS }
    ensures wants { (conf : ConfValue) (bytes : List ℕ) (progress : Progress) → StarvedSession conf bytes progress
        → length progress.calls ≤ MAX_HEADS }
{}

/// Of the same bytes, with the same moments, nonce calls and answers of the objects, a connection has one outcome,
/// but where they end inside a target: there no head may come, and nothing tells that yet.
pub fn has_one_outcome()
    ensures { (conf : ConfValue) (bytes : List ℕ) (stop : Stop) (f g : Progress) (a b : End)
        → Session conf bytes stop f a → Session conf bytes stop g b → MeetAlike f g
        → ((f ≡ g) × (a ≡ b)) ⊎ EndsInTarget (front f.rest) }
{}
