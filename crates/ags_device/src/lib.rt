//! Devices: what stands at the machine's registers, of many kinds under one interface, in boxes. It stands on `ags_word` for the
//! word. A contract sees a device as one record of its four meanings: the address that it feeds, the one that it hears, the words
//! that it will still give and those that it has heard. Each call of `Device` is pinned to that record, and each call on a list
//! of boxes to the list of records. Only what hears takes memory, and after want of it nothing is changed.
#![tactic(auto)]

mod boxes;
mod devices;
mod keeping;
pub mod laws;
mod pads;
mod recorders;
mod sensors;
mod tapes;

pub use boxes::{
    count_at, feeds_at, hear_all, hear_at, hears_at, last_at, left_at, next_at, remove_at,
};
pub use devices::Device;
pub use pads::Pad;
pub use recorders::Recorder;
pub use sensors::Sensor;
pub use tapes::Tape;
