//! The verdict of a certificate, and the walk over what it is about (docs/CHECKER.md). As a definition: which certificates
//! are certified, and which item of what is checked fails first; `laws` says that just the accepted certificates are
//! certified, with how many rows and cases, that a refusal tells the first failing item, and that a certificate has one
//! verdict. As a walk: the cases of a row and the rows of a certificate, in the order in which they are judged. What is asked
//! of a case is a `Judge`, of which the walk knows a relation and no more: so the verdict, a bound on time and tags of scale
//! walk alike, and none takes more steps than there are cases. It stands on `ags_safe` for what is checked and for the posts
//! of a case, on `ags_transfer` for the code of a row, and on `ags_text` and `ags_word` for what is printed. The call that
//! makes a verdict stands in the crate above. No call takes memory.
#![tactic(auto)]

mod case_at;
mod judges;
pub mod laws;
mod listing;
mod lists;
mod texts;
mod verdicts;
mod walks;

pub use case_at::CaseAt;
pub use judges::Judge;
pub use listing::cases_of;
pub use lists::{Cases, OneCase};
pub use verdicts::{Refusal, RowFault, Verdict};
pub use walks::{AtRow, walk_row, walk_rows};
