//! Tests over outsides that fail at each call in turn, and over files of nothing but one byte.

mod byte_tests;
mod command_lines;
mod each_call_tests;
mod twin_tests;
