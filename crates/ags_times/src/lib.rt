//! Texts of times: the bound that each row of a certificate has on the order time since the last resume (docs/TIMES.md). `read`
//! answers exactly what the definitions in `specs/` say of a text for so many rows: its budget, or its first fault. It stands on
//! `ags_statements` for the reading of such a text, on `ags_frame` for its lines, and on `ags_text` for fields and digits.
#![tactic(auto)]

mod budget_errors;
mod budgets;
mod gatherers;
pub mod laws;
mod lines;
mod reading;

pub use budget_errors::{BudgetError, BudgetKind};
pub use budgets::Budget;
pub use lines::{RowBound, TimesLine};
pub use reading::{TIMES_LIMIT, read};

// No clause can name a constant, so the number of each that is handed out is proved here.
const _: () = prove!(TIMES_LIMIT == 4_194_304);
