//! Tests of the machine, the panel and devices.

mod common;
mod core_tests;
mod deda_tests;
mod device_tests;
mod law_tests;
mod play_tests;
mod table_tests;
mod timed_tests;
