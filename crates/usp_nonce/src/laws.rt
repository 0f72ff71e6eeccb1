//! What is true of each legal history of a nonce table.
ghost use Rattle.std.specs.Prelude.{◌≡◌, ℕ, List, [], ◌∷◌, ◌++◌};
ghost use Rattle.usp_nonce.specs.History.{Call, IsLegal, IsNext};
ghost use Rattle.usp_nonce.specs.Laws.{AsksSame, TakesNoNonceTwice};

/// No nonce is taken twice while it is held.
pub fn takes_no_nonce_twice()
    ensures { (room : ℕ) (history : List Call) → IsLegal room history → TakesNoNonceTwice history }
{}

/// A legal history goes on with exactly one call of what is asked next, and each front of it is legal.
pub fn has_one_legal_history()
    ensures none { (room : ℕ) → IsLegal room [] }
    ensures more { (room : ℕ) (history : List Call) (call : Call)
        → IsLegal room history → IsNext room history call → IsLegal room (history ++ call ∷ []) }
    ensures last { (room : ℕ) (history : List Call) (call : Call)
        → IsLegal room (history ++ call ∷ []) → IsNext room history call }
    ensures front { (room : ℕ) (history rest : List Call)
        → IsLegal room (history ++ rest) → IsLegal room history }
    ensures one { (room : ℕ) (history : List Call) (a b : Call)
        → IsNext room history a → IsNext room history b → AsksSame a b → a ≡ b }
{}
