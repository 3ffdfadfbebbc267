//! The program as it is defined: its statuses, its kinds of files with the line of each refusal, its works, and the plan of what each
//! command line asks for; and a file of each kind, loaded. What the works make is defined by the words of `ags_compare`,
//! `ags_image`, `ags_xref`, `ags_verdict`, `ags_play`, `ags_budget`, `ags_scale` and `ags_recheck`, and what files hold by those of
//! the crates whose faults a refusal tells.
#![tactic(auto)]

mod files;
mod refusal;
mod status;
mod works;

pub use ags_files::SourceFile;
pub use files::{
    load_certificate, load_edits, load_listing, load_machine, load_scales, load_script,
    load_source, load_times,
};
pub use refusal::Refusal;
pub use status::Status;
pub use works::{ReadPair, Sequel, Work};
