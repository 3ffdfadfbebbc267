//! What the definitions of a text of times mean, over every text. Each law is what a function that does nothing ensures, so that it is
//! proved with the crate.

ghost use Rattle.std.specs.Prelude.{◌≡◌, ◌≤◌, ◌⊎◌, ℕ, List, length};
ghost use Rattle.ags_times.specs.Budget.{bound_of};
ghost use Rattle.ags_times.specs.Text.{IsBudgetOf, IsFaultyBudget};
ghost use Rattle.ags_times.specs.declared.budget_errors.BudgetKind.{BudgetKind};

/// A text means something, and one thing, for so many rows: it has bounds for them, or it has one first fault, and never both.
pub fn text_of_times_has_one_meaning()
    ensures some { (rows : ℕ) (text : List ℕ)
        → ((bounds : List ℕ) × IsBudgetOf rows text bounds) ⊎ ((line : ℕ) × (kind : BudgetKind) × IsFaultyBudget rows text line kind) }
    ensures budget { (rows : ℕ) (text : List ℕ) (one other : List ℕ) → IsBudgetOf rows text one → IsBudgetOf rows text other → one ≡ other }
    ensures fault { (rows : ℕ) (text : List ℕ) (line other_line : ℕ) (kind other_kind : BudgetKind)
        → IsFaultyBudget rows text line kind → IsFaultyBudget rows text other_line other_kind → (line ≡ other_line) × (kind ≡ other_kind) }
    ensures not_both { (rows : ℕ) (text : List ℕ) (bounds : List ℕ) (line : ℕ) (kind : BudgetKind)
        → IsBudgetOf rows text bounds → IsFaultyBudget rows text line kind → ⊥ }
{}

/// Each bound that a text gives is within the cycle, and there is one for each row.
pub fn bounds_of_a_text_are_within_the_cycle()
    ensures count { (rows : ℕ) (text : List ℕ) (bounds : List ℕ) → IsBudgetOf rows text bounds → length bounds ≡ rows }
    ensures cycle { (rows : ℕ) (text : List ℕ) (bounds : List ℕ) → IsBudgetOf rows text bounds → (number : ℕ) → bound_of bounds number ≤ 20000 }
{}
