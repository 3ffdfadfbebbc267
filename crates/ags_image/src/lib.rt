//! What an assembly puts into the machine's memory, and its texts. An `Image` has for each of the 4096 locations a word or
//! none; reading and setting a location are pinned to definitions over the list of the optional words in `specs/Image`, and
//! take no memory. Texts whose lines put words at places are read by the form of their lines (`LineForm`), to the image
//! that they put together or to their first fault; the tape is one of them, and is written here too (docs/SOURCE.md, Tape).
//! It stands on `ags_word` for the word, on `ags_text` for digits and first faults, and on `ags_outside` for where a tape
//! is written to. `laws` says how images meet; the lemmas that the crates above cite are listed at the head of
//! `proofs/ImageLaws`.
#![tactic(auto)]

mod columns;
mod forms;
mod images;
pub mod laws;
mod lines;
mod reading;
mod tape_forms;
mod tape_laws;
mod tape_reading;
mod tape_writing;
mod word_line_laws;

pub use columns::read_columns;
pub use forms::LineForm;
pub use images::Image;
pub use reading::{ReadError, read_image};
pub use tape_laws::{tape_lines_ascend, tape_reads_or_has_a_fault, written_tape_reads_back};
pub use tape_reading::{TAPE_LIMIT, TapeError, read_tape};
pub use tape_writing::send_tape;
pub use word_line_laws::{
    columns_put_words_of_the_memory, each_text_is_read_or_has_a_fault, printed_columns_are_read,
    read_text_has_no_fault, text_is_cut_at_feeds,
};

// No clause can name a constant, so the number of each that is handed out is proved here.
const _: () = prove!(TAPE_LIMIT == 134_217_728);
