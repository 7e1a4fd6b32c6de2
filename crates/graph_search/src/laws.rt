//! What holds of all nettings.

ghost use Rattle.std.specs.Prelude.{◌≡◌, ℕ, List};
ghost use Rattle.graph_search.specs.Netting.{IsNetting, IsNumberedInOrder};

/// A law, with nothing to run: links give parts only one list of numbers that are equal exactly where chains of them
/// lead and that stand in order of their first parts.
pub fn netting_is_determined()
    ensures { (count : ℕ) (links : List (ℕ × ℕ)) (a b : List ℕ) → IsNetting count links a → IsNumberedInOrder a
        → IsNetting count links b → IsNumberedInOrder b → a ≡ b }
{}
