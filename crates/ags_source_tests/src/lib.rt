//! Tests of files, sinks and plans, of words and numerals, of the source language and of what is made of a source, over what their
//! crates make public.
//! They stand in a crate of their own, so that the proofs of those crates aren't done a second time for them.
#![tactic(auto)]

#[cfg(test)]
mod card_tests;
#[cfg(test)]
mod common;
#[cfg(test)]
mod fix_up_tests;
#[cfg(test)]
mod image_tests;
#[cfg(test)]
mod law_tests;
#[cfg(test)]
mod order_tests;
#[cfg(test)]
mod outside;
#[cfg(test)]
mod tape_tests;
#[cfg(test)]
mod text_tests;
#[cfg(test)]
mod two_passes;
#[cfg(test)]
mod word_tests;
