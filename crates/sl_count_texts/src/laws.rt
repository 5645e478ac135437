//! Laws of the texts, over their definitions alone.

ghost use Rattle.std.specs.Prelude.{◌≡◌, ℕ, List};
ghost use Rattle.sl_law_meaning.specs.laws.MeaningLaws.{RecordsComeOnce};
ghost use Rattle.sl_law_meaning.specs.meaning.Means.{SameTable};
ghost use Rattle.sl_law_meaning.specs.meaning.Tables.{SeatTable};
ghost use Rattle.sl_law_meaning.specs.returns.Election.{Election};
ghost use Rattle.sl_count_texts.specs.Steps.{IsStepsText};

/// The steps text does not show in which order a table has its steps and weights, where none comes twice (docs/output.md, section 1).
pub fn steps_in_any_order()
    ensures { (names : List (List ℕ)) (e : Election) (t u : SeatTable) (x y : List ℕ) → SameTable t u → RecordsComeOnce t → IsStepsText names t e x → IsStepsText names u e y → x ≡ y }
{}

/// A table has one steps text.
pub fn one_steps_text()
    ensures { (names : List (List ℕ)) (t : SeatTable) (e : Election) (x y : List ℕ) → IsStepsText names t e x → IsStepsText names t e y → x ≡ y }
{}
