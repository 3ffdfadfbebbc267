//! The DEDA: the crew's panel, with its keys, its display, its light OPR ERR, and the digits that it sends. What a panel
//! shows and sends is a function of the whole list of what happened to it, defined in `specs/`; the code keeps a small
//! state, and each call's contract says that the panel goes on to stand for that list (docs/PANEL.md). It stands on
//! `std` alone, and no call takes memory.
#![tactic(auto)]

mod groups;
mod keyed;
mod keyings;
mod keys;
mod laws;
mod panels;

pub use keys::Key;
pub use laws::{
    clr_begins_anew, entries_send_their_digits, groups_are_displayed, hold_keeps_the_display,
    readouts_send_their_address, wrong_keys_light_the_light,
};
pub use panels::{BadDigit, Panel};
