//! The ground that every reader and writer of text stands on: a text's lines, the fields of a line, the texts of
//! numbers, and the first fault of a list. It stands on `std` alone, and each call is pinned by a definition in `specs/`.
#![tactic(auto)]

mod bytes;
mod faults;
mod field_laws;
mod fields;
mod four_digits;
mod line_laws;
mod lines;
mod number_laws;
mod numerals;
mod piece_laws;
mod pieces;
mod seven_digits;

pub use bytes::{are_digits, front_len};
pub use faults::{first_fault_is_first, no_fault_is_faultless};
pub use field_laws::{
    blanks_have_no_field, bytes_tell_fields, cut_fields_stand, numbers_are_fields,
    standing_fields_are_cut,
};
pub use fields::{are_blanks, split_field, split_leading_field};
pub use four_digits::FourDigits;
pub use line_laws::{lines_follow, lines_make_up_the_text, text_is_cut_in_one_way};
pub use lines::{Line, Lines, MOST_LINE_BYTES, strip_return};
pub use number_laws::{
    digits_of_a_width_are_a_number, number_has_so_many_digits, number_is_what_digits_write,
};
pub use numerals::{decimal7, numeral_writes, octal4, octal6, read_decimal, read_octal};
pub use piece_laws::lines_end_in_pieces;
pub use pieces::split_at_feed;
pub use seven_digits::SevenDigits;

// No clause can name a constant, so the number of each that is handed out is proved here.
const _: () = prove!(MOST_LINE_BYTES == 512);
