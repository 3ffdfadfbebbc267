//! What one order makes of a row: the words that may stand at the row's location, and for each of them, each index and
//! each indicator the posts, or the reason why the checker stops there. It stands on `ags_safe`, where what is
//! answered is defined and proved sound for one step of the machine. No call takes memory.
#![tactic(auto)]

mod cases;
mod codes;
mod deciding;
mod judging;
mod links;
mod loads;
mod ports;
mod products;
mod signs;
mod sums;
mod transfers;

pub use ags_safe::{PostPair, Stop};
pub use codes::code;
pub use judging::{posts, put_posts};
