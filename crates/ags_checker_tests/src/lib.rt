//! Tests of domains, rows, posts and the verdict, of certificates and of the texts that the checker reads, and of edits, over what
//! their crates make public. They stand in a crate of their own, so that the proofs of those crates aren't done a second time for them.
#![tactic(auto)]

#[cfg(test)]
mod certificates;
#[cfg(test)]
mod common;
#[cfg(test)]
mod counted_tests;
#[cfg(test)]
mod domain_tests;
#[cfg(test)]
mod edits;
#[cfg(test)]
mod law_tests;
#[cfg(test)]
mod link_tests;
#[cfg(test)]
mod load_tests;
#[cfg(test)]
mod row_tests;
#[cfg(test)]
mod tags_tests;
#[cfg(test)]
mod transfer_tests;
