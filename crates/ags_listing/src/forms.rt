//! The form of a listing's lines.

ghost use Rattle.std.specs.Prelude.{◌≡◌, ◌≤◌, length, true};
ghost use Rattle.std.specs.List.{list_all};
ghost use Rattle.ags_image.specs.Form.{entry_of, IsInMemory};
ghost use Rattle.ags_listing.specs.Reads.{is_digit, is_space, is_ruled, said};

use ags_image::{LineForm, read_columns};
use ags_text::are_digits;
use ags_word::Word;

/// A listing: a line puts its card's word at its place, where the card has one.
pub(crate) struct Listing;

/// Whether a column is blank.
fn are_spaces(text: &[u8]) -> bool
    ensures { result ≡ list_all is_space text.now }
{
    text.iter().all(|byte| *byte == b' ')
}

/// Whether a line has its number, and blanks between its columns.
#[tactic(auto, unfolding(crate::specs::Reads::is_ruled))]
fn is_ruled(line: &[u8]) -> bool
    ensures ruled { result ≡ is_ruled line.now }
    ensures long { result ≡ true → 20 ≤ length line.now }
{
    line.len() >= 20
        && are_digits(&line[..7])
        && line[7] == b' '
        && line[12] == b' '
        && line[19] == b' '
}

/// What the columns of a place and of a word say.
#[tactic(auto, unfolding(crate::specs::Reads::said))]
fn read_entry(place: &[u8], word: &[u8]) -> Option<Option<(u16, Word)>>
    requires four { length place.now ≡ 4 }
    requires six { length word.now ≡ 6 }
    ensures said { entry_of result ≡ said place.now word.now }
    ensures within { IsInMemory result }
{
    if are_spaces(place) && are_spaces(word) {
        return Some(None);
    }
    read_columns(place, word).map(Some)
}

impl LineForm for Listing {
    ghost use Rattle.ags_listing.specs.Reads.{listing_form};

    ghost form = { listing_form };

    #[tactic(auto, unfolding(crate::specs::Reads::listing_form))]
    fn read(line: &[u8]) -> Option<Option<(u16, Word)>> {
        if !is_ruled(line) {
            return None;
        }
        read_entry(&line[8..12], &line[13..19])
    }
}
