//! Tests of what no command line shows: outsides that fail, sources that come in pieces, the machine, and the bench with other devices.
//! They stand in a crate of their own, so that the programs' proofs aren't done a second time for them. Command lines and what they
//! print stand in cases/.
#![tactic(auto)]

#[cfg(test)]
mod bench;
#[cfg(test)]
mod command_lines;
#[cfg(test)]
mod fault_tests;
#[cfg(test)]
mod faults;
#[cfg(test)]
mod machine;
#[cfg(test)]
mod piece_tests;
#[cfg(test)]
mod status_tests;
#[cfg(test)]
mod want_tests;
