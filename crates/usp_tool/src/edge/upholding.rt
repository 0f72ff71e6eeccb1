//! What the notes of an edge say together. Each is a theorem for the crates above.
ghost use Rattle.std.specs.Prelude.{◌≡◌, ℕ, List, [], All};
ghost use Rattle.usp_conf.specs.Values.{ConfValue};
ghost use Rattle.usp_edge.specs.declared.note.Note.{Note};
ghost use Rattle.usp_nonce.specs.Laws.{TakesNoNonceTwice};
ghost use Rattle.usp_edge.specs.Decided.{Upholds};
ghost use Rattle.usp_tool.specs.Edge.Desks.{Desk, all_notes};
ghost use Rattle.usp_tool.specs.Edge.Workers.{OneHistory};

/// The notes of all workers of an edge are decided over one legal history, whatever the turns of their threads were.
/// A request is admitted exactly where rules 1 to 15 hold and the history has its nonce taken at its place, where it
/// has one; each denial names the first rule that fails. The places shown are those of the whole history, each once,
/// and no nonce is taken twice while it is held.
pub fn upholds_one_history()
    ensures upholds { (conf : ConfValue) (most n : ℕ) (old new : List Desk)
        → All (λ (desk : Desk). desk.notes ≡ []) old → OneHistory conf most n old new
        → Upholds conf n (all_notes new) }
    ensures once { (conf : ConfValue) (n : ℕ) (notes : List Note) (upholds : Upholds conf n notes)
        → TakesNoNonceTwice upholds.history }
{}
