//! What is true of the calls of seats.
ghost use Rattle.std.specs.Prelude.{◌≡◌, ℕ, List, [], ◌∷◌, ◌++◌, Some, slice_get};
ghost use mathlib.Core.List.{IsPrefix};
ghost use Rattle.usp_nonce.specs.History.{Call};
ghost use Rattle.usp_shared.specs.Histories.{AreAt, IsEntered, Placed};

/// A call stands at the place that it is told, and stays there however the history goes on.
pub fn keeps_each_call_at_its_place()
    ensures at { (before after : List Call) (call : Call) (place : ℕ)
        → IsEntered before call place after → slice_get after place ≡ Some call }
    ensures more { (before after : List Call) (call : Call) (place : ℕ)
        → IsEntered before call place after → IsPrefix before after }
    ensures later { (history longer : List Call) (call : Call) (place : ℕ)
        → slice_get history place ≡ Some call → IsPrefix history longer
        → slice_get longer place ≡ Some call }
    // What was answered before a `take` stays at its place behind it, with the call that it made.
    ensures taken { (before after : List Call) (answered : List Placed) (call : Call) (place : ℕ)
        → IsEntered before call place after → AreAt before answered
        → AreAt after (answered ++ record { call = call; place = place } ∷ []) }
    // What was answered to two seats stays at its place where a `join` makes them one.
    ensures joined { (one other both : List Call) (answered others : List Placed)
        → IsPrefix one both → IsPrefix other both → AreAt one answered → AreAt other others
        → AreAt both (answered ++ others) }
{}
