//! Tests of certificates: of their rows by location, of their texts read in pieces and written, of lines and first lines, and of the values
//! at positions of lines.

mod cert_tests;
mod certsend_tests;
mod certtext_tests;
mod common;
mod location_tests;
mod opening_tests;
mod piece_tests;
mod value_tests;
