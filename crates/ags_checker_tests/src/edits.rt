//! Tests of the book of edited programs.

mod common;
mod random_tests;
