//! Budgets.

ghost use Rattle.std.specs.Prelude.{◌≡◌, ◌≤◌, ℕ, Option, IfSome, All, length};
ghost use Rattle.ags_times.specs.Budget.{IsGreatest, IsTime, bound_of, bounds_where};

use std::marker::Model;

/// The cycle, in microseconds: the greatest bound, and that of a row of which none is stated.
pub(crate) const CYCLE: u32 = 20_000;

/// A bound for each row of a certificate, from 1 to 20,000 microseconds.
#[derive(Drop)]
pub struct Budget {
    /// What is stated of each row, the first row's first.
    stated: Vec<Option<u32>>,
}

impl Model for Budget {
    ghost use Rattle.std.specs.Prelude.{ℕ, List, IfSome, All};
    ghost use Rattle.ags_times.specs.Budget.{IsTime, bounds_where};

    ghost Value = { List ℕ };

    ghost view = { λ budget. bounds_where budget.stated.items };

    ghost invariant = { λ budget. All (λ bound. IfSome bound IsTime) budget.stated.items };
}

impl Budget {
    /// The budget of the bounds that are stated.
    pub(crate) fn of(stated: Vec<Option<u32>>) -> Budget
        requires { All (λ bound. IfSome bound IsTime) stated.items }
        ensures { result ≡ bounds_where stated.items }
    {
        Budget { stated }
    }

    /// The bound of the row with a number, from 1, which is that of the first row for 0 too; 0 where there are fewer rows.
    pub fn bound(&self, number: u32) -> u32
        ensures bound { result ≡ bound_of self.now number }
        ensures most { result ≤ 20000 }
    {
        match self.stated.get((number as usize).saturating_sub(1)) {
            Some(bound) => bound.unwrap_or(CYCLE),
            None => 0,
        }
    }

    /// Does nothing: its contract tells the proofs that each bound is at most the cycle.
    pub fn bounds_are_times(&self)
        ensures { (number : ℕ) → bound_of self.now number ≤ 20000 }
    {
        let _rows = self.stated.len();
    }

    /// The greatest bound.
    pub fn greatest(&self) -> u32
        requires { 1 ≤ length self.now }
        ensures { IsGreatest self.now result }
    {
        let mut greatest = self.bound(1);
        for bound in self.stated.as_slice() {
            greatest = greatest.max(bound.unwrap_or(CYCLE));
        }
        greatest
    }
}
