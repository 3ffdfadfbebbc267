//! What is asked of a case.

ghost use Rattle.std.specs.Prelude.{◌≡◌, ◌+◌, ◌≤◌, ℕ, Result, IfOk};
ghost use Rattle.ags_row.specs.declared.rows.Row.{Row};
ghost use Rattle.ags_verdict.specs.RowCase.{RowCase};

use crate::lists::OneCase;
use ags_row::Row;
use ags_steps::Steps;
use std::sync::ledger::Ledger;

/// What is asked of each case of a certificate.
pub trait Judge<D, L: Ledger> {
    /// What is told of a case that fails.
    type Fault;

    /// What comes of a case of the row with a number: a count, or what is told.
    ghost judges: { Self → ℕ → Row D → RowCase → Result ℕ Self.Fault → Type 0 };

    /// What comes of a row that has no code.
    ghost unknown: { Result ℕ Self.Fault };

    /// What comes of a row that has no code, which counts nothing.
    fn code_unknown(&self) -> Result<u64, Self::Fault>
        ensures same { result ≡ unknown }
        ensures none { IfOk result (λ count. count ≡ 0) };

    /// A case counts once, or fails; it takes one step at most.
    fn case(
        &self,
        number: u32,
        row: &Row<D>,
        case: OneCase,
        steps: &mut Steps<L>,
    ) -> Result<u64, Self::Fault>
        ensures judged { judges self.now number row.now case result }
        ensures once { IfOk result (λ count. count ≡ 1) }
        ensures step { steps.new ≤ steps.old + 1 };
}
