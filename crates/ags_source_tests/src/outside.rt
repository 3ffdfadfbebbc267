//! Tests of shelves and sinks in memory, of real files, and of the walk along the files of a command.

mod advice_tests;
mod common;
mod edge_tests;
mod outside_tests;
mod plan_tests;
