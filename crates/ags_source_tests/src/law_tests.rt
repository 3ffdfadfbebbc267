//! Each law can be called.

use ags_asm::{
    each_card_has_its_definition, each_text_has_a_meaning, source_defines_each_place_once,
    source_defines_words_of_the_memory, source_means_one_thing,
};
use ags_card::{
    cards_keep_to_their_form, each_line_is_a_card_or_has_a_fault, lines_spell_what_is_read,
    symbols_are_capitals_and_digits,
};
use ags_compare::images_compare_in_one_way;
use ags_image::written_tape_reads_back;
use ags_listing::printed_listing_reads_back;
use ags_places::{
    card_lines_follow, each_symbol_has_a_pair, one_list_of_pairs_fits, places_are_sums,
    words_stand_in_the_memory,
};
use ags_symbol::pairs_are_found_by_name;
use ags_text::{
    blanks_have_no_field, bytes_tell_fields, cut_fields_stand, digits_of_a_width_are_a_number,
    first_fault_is_first, lines_follow, lines_make_up_the_text, no_fault_is_faultless,
    number_has_so_many_digits, number_is_what_digits_write, numbers_are_fields, numeral_writes,
    standing_fields_are_cut, text_is_cut_in_one_way,
};
use ags_xref::pairs_by_name_ascend;

#[test]
fn laws_can_be_called() {
    // of texts, at types of their own
    first_fault_is_first::<u8, u16>();
    no_fault_is_faultless::<u8, u16>();
    numeral_writes();
    number_is_what_digits_write();
    number_has_so_many_digits();
    digits_of_a_width_are_a_number();
    standing_fields_are_cut();
    cut_fields_stand();
    blanks_have_no_field();
    bytes_tell_fields();
    numbers_are_fields();
    lines_make_up_the_text();
    text_is_cut_in_one_way();
    lines_follow();
    // of cards, symbols and places
    symbols_are_capitals_and_digits();
    lines_spell_what_is_read();
    each_line_is_a_card_or_has_a_fault();
    cards_keep_to_their_form();
    pairs_are_found_by_name();
    card_lines_follow();
    each_symbol_has_a_pair();
    one_list_of_pairs_fits();
    places_are_sums();
    words_stand_in_the_memory();
    // of assembled sources, and of what is written of them
    each_card_has_its_definition();
    each_text_has_a_meaning();
    source_defines_each_place_once();
    source_defines_words_of_the_memory();
    source_means_one_thing();
    written_tape_reads_back();
    images_compare_in_one_way();
    printed_listing_reads_back();
    pairs_by_name_ascend();
}
