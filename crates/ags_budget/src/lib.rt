//! A bound on the order time of each cycle (docs/TIMES.md). `judge` says whether the budget of a certificate's rows is accepted: whether
//! after each order the bound of some row that covers what it leaves is still within the bound of its own row. Where it is, the order
//! time since the last resume stays in every run within the bound of each row that held the state then. It stands on `ags_times` for
//! budgets, on `ags_verdict` for the walk over the cases, on `ags_transfer` for their posts and on `ags_check` for the verdict and the rows
//! that cover a post. Only the reading of a text takes memory.
#![tactic(auto)]

mod answers;
mod covering;
mod judging;
pub mod laws;
mod texts;
mod timing;

pub use ags_times::{Budget, BudgetError, BudgetKind, TIMES_LIMIT, read};
pub use answers::{LateCase, Timed};
pub use judging::judge;

// No clause can name a constant, so the number that is handed out is proved here.
const _: () = prove!(TIMES_LIMIT == 4_194_304);
