//! What is asked for, loaded: the files of a command line, or the texts of a workload, read into the work that is then done.
//! `load_asked` loads what the plan in the definitions of `ags_program` says, and ties each fault to the shelf. It stands on
//! `ags_command` for the forms of arguments, on `ags_plan` for the walk along files, on `ags_program` for loading each, and on
//! `ags_load` and `ags_files` for making and reading the texts of a workload.
#![tactic(auto)]

mod commands;
mod lines;
mod pairs;
mod workloads;

pub use lines::load_asked;
