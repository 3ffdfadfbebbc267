//! The program's one call: from the arguments of a command line to a status and the bytes that are written, over any
//! shelf and any sink. What a command line asks for is loaded by `ags_asked`, along the walk of `ags_plan`, and done
//! here: a text of a source is written by `ags_listing`, `ags_image` or `ags_xref`, images are compared by
//! `ags_compare`, scripts played and certificates judged by `ags_played`, where the verdict is said with what stands with it: a guarded
//! script, bounds on order time (`ags_budget`), scales (`ags_scale`) or edits (`ags_recheck`).
//! `ags_main` answers exactly what the definitions in `specs/`, and those of `ags_program`, say of the arguments and the files.
#![tactic(auto)]

mod answer_laws;
mod budget_command;
mod certify_command;
mod compare_command;
mod edits_command;
mod judging;
mod listed_laws;
mod main_call;
mod program;
mod scales_command;
mod sending;
mod workload_command;
mod write_command;

pub use ags_program::Status;
pub use answer_laws::{
    arguments_have_one_answer, certified_lines_begin_with_certified, each_command_has_an_answer,
};
pub use listed_laws::certified_listing_is_what_runs;
pub use main_call::ags_main;
