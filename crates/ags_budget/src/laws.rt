//! What an accepted budget means.

ghost use Rattle.std.specs.Prelude.{◌≡◌, ℕ, ◌≤◌, List, length, Option, Ok};
ghost use Rattle.ags_domain.specs.declared.values.Value.{Value};
ghost use Rattle.ags_image.specs.Image.{IsImage};
ghost use Rattle.ags_ports.specs.Machine.{IsMachine};
ghost use Rattle.ags_ports.specs.declared.machines.Machine.{Machine};
ghost use Rattle.ags_safe.specs.Certificate.{Certificate};
ghost use Rattle.ags_safe.specs.Accepted.{Accepted};
ghost use Rattle.ags_safe.specs.Safe.{Safe};
ghost use Rattle.ags_times.specs.Budget.{bound_of};
ghost use Rattle.ags_budget.specs.Timed.{AreRowsTimed, IsTimed};
ghost use Rattle.ags_budget.specs.Spent.{KeepsBounds};
ghost use Rattle.ags_budget.specs.declared.answers.Timed.{Timed};

use ags_domain::Domain;

/// Where each case of an accepted certificate is in time, and every run is safe, what a run spends stays within the bound of each row
/// that held the state at the last resume, and so within the cycle.
pub fn accepted_budgets_bound_what_is_spent<D: Domain>()
    ensures { (machine : Machine) (image : List (Option ℕ)) (cert : Certificate D) (bounds : List ℕ) (cases : ℕ) → IsMachine machine
        → Accepted D.meaning machine image cert → AreRowsTimed D.meaning machine image cert bounds (Ok cases)
        → Safe D.meaning machine image cert → ((number : ℕ) → bound_of bounds number ≤ 20000) → KeepsBounds D.meaning machine image cert bounds }
{}

/// With a bound for each row of a certificate there is an answer to the budget, and one alone.
pub fn budget_has_one_answer()
    ensures some { (machine : Machine) (image : List (Option ℕ)) (cert : Certificate Value) (bounds : List ℕ) → IsMachine machine → IsImage image
        → length bounds ≡ length cert.rows → (timed : Timed) × IsTimed machine image cert bounds timed }
    ensures one { (machine : Machine) (image : List (Option ℕ)) (cert : Certificate Value) (bounds : List ℕ) (one other : Timed) → IsMachine machine
        → IsTimed machine image cert bounds one → IsTimed machine image cert bounds other → one ≡ other }
{}
