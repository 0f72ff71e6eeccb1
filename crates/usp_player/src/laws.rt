//! Laws of the player.
ghost use Rattle.std.specs.Prelude.{◌≡◌, ◌≢◌, ◌++◌, ℕ, List, [], Option};
ghost use Rattle.usp_base.specs.declared.link.Asked.{Asked};
ghost use Rattle.usp_player.specs.Playing.{Next, Played, Turn, answers_of, ask, stopped};
ghost use Rattle.usp_player.specs.declared.fault.PlayFault.TheVariants.{NoMemory};
ghost use Rattle.usp_player.specs.declared.map.Place.{Place};
ghost use Rattle.usp_player.specs.declared.transcript.Step.{Step};

/// By the answers of its link alone, a player has asked the same, has the same requests answered, and does the
/// same next; and where it has played or stopped, it asks no more. Want of memory may come at any time.
pub fn has_one_outcome()
    ensures one { (places : List Place) (start : Next) (asks other_asks : List Asked)
        (steps other_steps : List Step) (next other_next : Next)
        → Played places start asks steps next
        → Played places start other_asks other_steps other_next
        → answers_of asks ≡ answers_of other_asks
        → next ≢ stopped NoMemory → other_next ≢ stopped NoMemory
        → (asks ≡ other_asks) × (steps ≡ other_steps) × (next ≡ other_next) }
    ensures last { (places : List Place) (start : Next) (asks other_asks : List Asked)
        (steps other_steps : List Step) (next other_next : Next) (later : List (Option (List ℕ)))
        → Played places start asks steps next
        → Played places start other_asks other_steps other_next
        → answers_of other_asks ≡ answers_of asks ++ later
        → next ≢ stopped NoMemory → ((turn : Turn) → next ≢ ask turn) → later ≡ [] }
{}
