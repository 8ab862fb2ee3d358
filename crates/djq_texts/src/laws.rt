//! What a search finds after a call.
ghost use Rattle.std.specs.Prelude.{◌≡◌, ℕ, ◌<◌, List, Option, Some, None};
ghost use Rattle.djq_texts.specs.Known.{Known, known_at, with_less, HasNumber, IsOneToOne, Sets, TakesUse, FindsText};

/// What [`Texts::find`](crate::Texts::find) returns after a use was added or given back. It does nothing.
///
/// A text of which a use was added is found, under the number that was returned. One whose last use was given back isn't
/// found. Any other text is found as before, or not at all as before.
pub fn finding()
    ensures taken { (old new : List (Option Known)) (text : List ℕ) (n : ℕ) (r : Option ℕ) → IsOneToOne new
        → TakesUse old text n new → FindsText new text r → r ≡ Some n }
    ensures forgotten { (old new : List (Option Known)) (text : List ℕ) (n : ℕ) (r : Option ℕ) → IsOneToOne old
        → known_at old n ≡ Some (record { bytes = text; uses = 1 }) → Sets old n (with_less (known_at old n)) new
        → FindsText new text r → r ≡ None }
    ensures others { (old new : List (Option Known)) (n : ℕ) (now : Option Known) (text : List ℕ) (r : Option ℕ)
        → Sets old n now new → (HasNumber old n text → ⊥) → (HasNumber new n text → ⊥) → FindsText old text r
        → FindsText new text r }
{}
