//! Tests of the bench: its scripts, and whole calls over files in memory with devices of several kinds. The expected lines are typed
//! by hand from docs/BENCH.md.

mod common;
mod feed_tests;
mod memory_tests;
mod put_tests;
mod row_tests;
mod script_tests;
mod status_tests;
