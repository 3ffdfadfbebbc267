//! What is gathered of the lines of a text of times.

ghost use Rattle.std.specs.Prelude.{◌≡◌, [], None, IfOk, length};

use crate::budget_errors::BudgetKind;
use crate::budgets::CYCLE;
use crate::lines::{RowBound, TimesLine, read_times_line};
use ags_frame::Statements;
use ags_statements::{Gathers, Untaken};
use std::alloc::{AllocError, Global};

/// The bounds of the rows so far.
#[derive(Drop)]
pub(crate) struct Gatherer {
    /// The bound of each row, the first row's first, where a line stated one.
    pub(crate) bounds: Vec<Option<u32>>,
    /// Whether END was the last line.
    ended: bool,
}

impl Gatherer {
    ghost use Rattle.std.specs.Prelude.{◌≡◌, ◌==◌, ◌||◌, ℕ, nat_lt, [], IfOk, IfErr, length, true, false};
    ghost use Rattle.ags_statements.specs.Taking.{TakesStatement, TellsUntaken};
    ghost use Rattle.ags_times.specs.Gathering.{gathered_of, is_noted};
    ghost use Rattle.ags_times.specs.Text.{faults};
    ghost use Rattle.ags_times.specs.declared.lines.TimesLine.TheVariants.{Bound};

    /// Nothing is gathered for so many rows.
    pub(crate) fn new(alloc: Global, rows: u32) -> Result<Gatherer, AllocError>
        ensures nothing { IfOk result (λ g. gathered_of g []) }
        ensures rows { IfOk result (λ g. length g.bounds.items ≡ rows) }
    {
        Ok(Gatherer {
            bounds: vec![in alloc; None; rows as usize]?,
            ended: false,
        })
    }

    /// Whether there is no row of a number.
    fn has_no_row(&self, number: u32) -> bool
        ensures { result ≡ (number == 0 || nat_lt (length self.now.bounds.items) number) }
    {
        number == 0 || self.bounds.len() < number as usize
    }

    /// Whether a line stated the bound of a row.
    fn is_noted(&self, number: u32) -> bool
        ensures { result ≡ is_noted self.now.bounds.items number }
    {
        if self.has_no_row(number) {
            return false;
        }
        self.bounds[number as usize - 1].is_some()
    }

    /// Takes the bound of a row, where END doesn't stand before it.
    fn take_bound(&mut self, its: RowBound) -> Result<(), Untaken<BudgetKind>>
        requires { self.old.ended ≡ false }
        ensures taken { (version : ℕ) → IfOk result (λ _. TakesStatement gathered_of (faults (length self.old.bounds.items)) version self.old (Bound its) self.new) }
        ensures untaken { (version : ℕ) → IfErr result (TellsUntaken gathered_of (faults (length self.old.bounds.items)) version self.old (Bound its)) }
        ensures rows { length self.new.bounds.items ≡ length self.old.bounds.items }
    {
        if self.is_noted(its.row) {
            return Err(Untaken::Faulty(BudgetKind::Twice));
        }
        if self.has_no_row(its.row) {
            return Err(Untaken::Faulty(BudgetKind::NoRow));
        }
        if its.bound == 0 || CYCLE < its.bound {
            return Err(Untaken::Faulty(BudgetKind::TimeRange));
        }
        self.bounds[its.row as usize - 1] = Some(its.bound);
        Ok(())
    }
}

impl Statements for Gatherer {
    ghost use Rattle.ags_times.specs.Spelling.{States};

    type Statement = TimesLine;

    ghost states = { States };

    fn read_statement(line: &[u8]) -> Option<TimesLine> {
        read_times_line(line)
    }

    fn lines_state_one_thing_at_most() {}
}

impl Gathers for Gatherer {
    ghost use Rattle.std.specs.Prelude.{◌≡◌, length};
    ghost use Rattle.std.proofs.Common.{refl, ap, ◌∙◌};
    ghost use Rattle.ags_times.specs.Gathering.{gathered_of};
    ghost use Rattle.ags_times.specs.Text.{faults};

    type Fault = BudgetKind;

    ghost faults = { λ g. faults (length g.bounds.items) };

    ghost stays = { λ old new. length new.bounds.items ≡ length old.bounds.items };

    ghost gathered = { gathered_of };

    fn take(&mut self, version: u32, line: TimesLine) -> Result<(), Untaken<BudgetKind>> {
        if self.ended {
            return Err(Untaken::Faulty(BudgetKind::BadLine));
        }
        match line {
            TimesLine::Bound(its) => self.take_bound(its),
            TimesLine::End => {
                self.ended = true;
                Ok(())
            }
        }
    }

    fn has_ended(&self) -> bool {
        self.ended
    }

    fn bad_line(&self) -> BudgetKind {
        BudgetKind::BadLine
    }

    fn version(&self) -> BudgetKind {
        BudgetKind::Version
    }

    ghost stays_at_once = { λ g. refl };

    ghost stays_on = { λ old mid new one two. two ∙ one };

    ghost faults_stay = { λ old new same. ap faults same };
}
