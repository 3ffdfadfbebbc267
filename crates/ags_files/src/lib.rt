//! The files that programs read, loaded: a machine file, a source, a listing, a certificate, a script and texts of times, of scales and of edits,
//! each from any shelf, and a source and a certificate of bytes at hand. What a loader answers is said by what a reader makes of bytes
//! (`specs/Reading`): how many it takes at most, what they hold, and when they are refused. It cites no program: one lemma
//! (`proofs/ReadingLemmas`) lifts a reading to a kind of any program's plans. It stands on `ags_plan` for the walk along
//! files, and for what files hold on `ags_machfile`, `ags_asm`, `ags_listing`, `ags_cert`, `ags_script`, `ags_times`, `ags_tags` and `ags_edits`.
#![tactic(auto)]

mod certificates;
mod edits;
mod listings;
mod machines;
mod refusals;
mod scales;
mod scripts;
mod sources;
mod times;

pub use certificates::{load_certificate, read_certificate};
pub use edits::load_edits;
pub use listings::load_listing;
pub use machines::load_machine;
pub use refusals::{RefusesBy, refused_by};
pub use scales::load_scales;
pub use scripts::load_script;
pub use sources::{SourceFile, load_source, read_source};
pub use times::load_times;
