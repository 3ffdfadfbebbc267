//! The play of a script on the machine and its panel. `play` makes the events that `ags_play` defines, and prints their
//! text, under a certificate as its guard or under none. It stands on `ags_play` for what a play is, on `ags_script`
//! for commands, on `ags_core`, `ags_timed`, `ags_ports` and `ags_image` for the machine, on `ags_deda` for the panel,
//! on `ags_certtype`, `ags_safe`, `ags_safe` and `ags_domain` for what a certificate declares, on `ags_outside` for the
//! output, on `ags_text` and `ags_word` for digits, and on `arrayvec`.
#![tactic(auto)]

mod acts;
mod benches;
mod commands;
mod cycling;
mod error_texts;
mod guarding;
mod listeners;
mod outside;
mod play_error;
mod players;
mod playing;
mod putting;
mod script_play;
mod showing;
mod shown_lines;
mod starting;
mod whole_lines;

pub use acts::carry_in;
pub use guarding::find_outside;
pub use outside::Outside;
pub use play_error::PlayError;
pub use playing::{Played, play};
pub use putting::cert_lets_through;
pub use showing::output_at;
pub use shown_lines::{cell_line, output_line, reg_line};
pub use whole_lines::{WholeLine, whole_line};
