//! What a certificate promises, and that an accepted one keeps it (docs/CHECKER.md). `Posts` of specs/ says what one order
//! may leave of a row: the posts of a case, or the reason why the checker stops at it. `Certificate`, `Start` and `Safe` say
//! what every run of a program does, in states, events and single steps of the machine; `Accepted` says what is checked, one
//! order at a time. It stands on `ags_row` for rows, on `ags_domain` for sets of words, and on `ags_ports` for orders and
//! runs. `post_laws` says that the posts of a case are sound for one step of the machine, and that a case has one answer;
//! `laws` says that the program of an accepted certificate is safe in every run. Nothing here runs: the types of the answers
//! stand here, and the calls that make posts, and read and judge certificates, in the crates above.
#![tactic(auto)]

mod answers;
pub mod laws;
pub mod post_laws;

pub use answers::{PostPair, Stop};
