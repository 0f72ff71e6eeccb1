//! What bytes hold does not depend on how they come.
ghost use Rattle.std.specs.Prelude.{◌≡◌, ◌≢◌, List, ℕ, ◌++◌};
ghost use Rattle.usp_http.specs.Finding.{Finds, IsSettled, Stop};
ghost use Rattle.usp_http.specs.declared.head.Head.{Head};
ghost use Rattle.usp_http.specs.declared.next.Next.{Next};
ghost use Rattle.usp_http.specs.declared.next.Next.TheVariants as next;

/// A head, and each fault that does not come of the end, is found in some bytes and then also in those with more
/// behind them. Where bytes hold a head, nothing else is found in them.
pub fn finds_the_same_however_cut()
    ensures goes_on { (result : Next) (rest after more : List ℕ) (stop later : Stop) → IsSettled result
        → Finds result rest stop after → Finds result (rest ++ more) later (after ++ more) }
    ensures one { (result : Next) (head : Head) (rest after after_other : List ℕ) (stop other : Stop)
        → Finds (next.Found head) rest stop after → Finds result rest other after_other → result ≢ next.NoMemory
        → (result ≡ next.Found head) × (after_other ≡ after) }
{}
