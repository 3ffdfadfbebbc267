//! The check of a certificate (docs/CHECKER.md): the first words of the erasable cells, the start, and the cases of the
//! rows one at a time, each of which makes its posts once. It stands on `ags_verdict`, where the answers are defined, and
//! for the walk over the cases, on `ags_transfer` for the posts of a case, and on `ags_certtype` for certificates. What each
//! part of the check finds is public too, for what asks more of the same rows. `answer_laws` says that each work has an
//! answer: each case of a certificate over values has posts or a stop, each row a code or too many words, and each
//! certificate a verdict; and that a refusal tells the first fault. No call takes memory.
#![tactic(auto)]

mod accepting;
pub mod answer_laws;
mod answers;
mod checking;
mod coverage;
mod covering;
mod finding;
mod firsts;
pub mod laws;
mod refusals;
mod serving;
mod starts;

pub use accepting::Accepting;
pub use answers::{Refusal, RowFault, Verdict};
pub use checking::check;
pub use coverage::first_uncovered;
pub use covering::covering_row;
pub use firsts::first_outside;
pub use refusals::refusal_of;
pub use serving::{EachServes, Serving};
pub use starts::start_row;
