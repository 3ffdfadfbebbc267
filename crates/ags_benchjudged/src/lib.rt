//! A certificate that was judged for the bench: the line of its verdict, and, where it is certified, the script driven by `ags_drive` with
//! the devices that were handed in, and the line of what its run met (docs/BENCH.md).
#![tactic(auto)]

mod driving;

pub use driving::drive_pair;
