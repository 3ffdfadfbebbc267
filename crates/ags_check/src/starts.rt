//! The row that holds the start.

ghost use Rattle.std.specs.Prelude.{◌≡◌, ◌<◌, ◌^◌, ◌↔◌, ℕ, true, IsTrue, IfSome, All};
ghost use Rattle.ags_word.specs.Word.{val};
ghost use Rattle.ags_domain.specs.Value.{value_meaning};
ghost use Rattle.ags_image.specs.Image.{entry_at};
ghost use Rattle.ags_row.specs.Flag.{has_flag};
ghost use Rattle.ags_safe.specs.Accepted.{HoldsStart};
ghost use Rattle.ags_certtype.specs.Cert.{certificate_of};
ghost use Rattle.ags_check.specs.Checking.{HoldsFirstWords, IsOffsetOfFirstWords};
ghost use Rattle.ags_check.specs.Finding.{IsFound, IsStartRow};

use crate::finding::{RowTest, find_row};
use crate::serving::Serving;
use ags_certtype::Cert;
use ags_domain::{Domain, Value};
use ags_image::Image;
use ags_row::{At, Link, Row};
use ags_word::Word;
use std::marker::Model;

/// Whether a set holds each word that may stand at the start in a cell, by the image's entry and what is stated of the start.
fn holds_first_words(value: Value, entry: Option<Word>, stated: Option<Value>) -> bool
    ensures { IsTrue result ↔ HoldsFirstWords value entry stated }
{
    match entry {
        Some(word) => value.holds(word),
        None => match stated {
            Some(first) => first.within(&value),
            None => value.holds(Word::ZERO),
        },
    }
}

/// Whether a cell's set holds each word that may stand in the cell at the start.
fn cell_holds_start(image: &Image, cert: &Cert, cell: &At<Value>) -> bool
    requires { cell.now.address < 2048 }
    ensures { IsTrue result
        ↔ HoldsFirstWords cell.now.value (entry_at image.now cell.now.address) ((certificate_of cert.now).init cell.now.address) }
{
    holds_first_words(cell.value, image.get(cell.address), cert.init(cell.address))
}

/// The same of each of some cells.
fn cells_hold_start(image: &Image, cert: &Cert, cells: &[At<Value>]) -> bool
    requires { All (λ at. at.address < 2048) cells.now }
    ensures { IsTrue result
        ↔ All (λ at. HoldsFirstWords at.value (entry_at image.now at.address) ((certificate_of cert.now).init at.address)) cells.now }
{
    for cell in cells {
        if !cell_holds_start(image, cert, cell) {
            return false;
        }
    }
    true
}

/// Whether a link's offset is the value of a word.
fn is_offset(link: Link, word: Word) -> bool
    ensures { IsTrue result ↔ (link.offset ≡ val word) }
{
    link.offset == word.value()
}

/// The same of each word of a set.
fn is_offset_of_each(link: Link, words: &Value) -> bool
    ensures { IsTrue result ↔ ((word : ℕ) → word < 2 ^ 18 → value_meaning.held words.now word ≡ true → link.offset ≡ val word) }
{
    if !is_offset(link, words.least()) {
        return false;
    }
    is_offset(link, words.greatest())
}

/// The same of each word that may stand at the start in a cell, by the image's entry and what is stated of the start.
fn is_offset_of_first_words(link: Link, entry: Option<Word>, stated: Option<Value>) -> bool
    ensures { IsTrue result ↔ IsOffsetOfFirstWords link.offset entry stated }
{
    match entry {
        Some(word) => is_offset(link, word),
        None => match stated {
            Some(first) => is_offset_of_each(link, &first),
            None => is_offset(link, Word::ZERO),
        },
    }
}

/// Whether a row's link, where it has one, holds of A = 0 and each word that may stand at the start in the link's cell.
fn link_holds_start(image: &Image, cert: &Cert, link: Option<Link>) -> bool
    requires { IfSome link (λ link. link.address < 2048) }
    ensures { IsTrue result
        ↔ IfSome link (λ link. IsOffsetOfFirstWords link.offset (entry_at image.now link.address) ((certificate_of cert.now).init link.address)) }
{
    match link {
        Some(link) => {
            is_offset_of_first_words(link, image.get(link.address), cert.init(link.address))
        }
        None => true,
    }
}

/// Whether a row stands at the start, and holds A, Q, the index and the indicator at 0.
fn registers_hold_start(cert: &Cert, row: &Row<Value>) -> bool
    ensures location { IsTrue result → row.now.location ≡ cert.now.start }
    ensures a { IsTrue result → value_meaning.held row.now.a 0 ≡ true }
    ensures q { IsTrue result → value_meaning.held row.now.q 0 ≡ true }
    ensures index { IsTrue result → has_flag row.now.x 0 ≡ true }
    ensures indicator { IsTrue result → has_flag row.now.v 0 ≡ true }
    ensures all { row.now.location ≡ cert.now.start → value_meaning.held row.now.a 0 ≡ true → value_meaning.held row.now.q 0 ≡ true
        → has_flag row.now.x 0 ≡ true → has_flag row.now.v 0 ≡ true → IsTrue result }
{
    row.location() == cert.start()
        && row.a().holds(Word::ZERO)
        && row.q().holds(Word::ZERO)
        && row.x()[0]
        && row.v()[0]
}

/// Whether a row holds all that may stand at the start.
fn holds_start(image: &Image, cert: &Cert, row: &Row<Value>) -> bool
    ensures { IsTrue result ↔ HoldsStart value_meaning image.now (certificate_of cert.now) row.now }
{
    if !registers_hold_start(cert, row) {
        return false;
    }
    if !link_holds_start(image, cert, row.link()) {
        return false;
    }
    cells_hold_start(image, cert, row.at())
}

/// That a row holds all that may stand at the start, and a further condition holds of its number.
#[derive(Drop)]
struct Starting<'a, S: Serving> {
    image: &'a Image,
    cert: &'a Cert,
    serving: &'a S,
}

impl<'a, S: Serving> Model for Starting<'a, S> {
    ghost use Rattle.ags_check.specs.Asking.{Starting};

    ghost Value = { Starting S };

    ghost view = { λ s. record { image = s.image.now; cert = s.cert.now; serving = s.serving.now } };
}

impl<'a, S: Serving> RowTest for Starting<'a, S> {
    ghost use Rattle.ags_domain.specs.Value.{value_meaning};
    ghost use Rattle.ags_safe.specs.Accepted.{HoldsStart};
    ghost use Rattle.ags_certtype.specs.Cert.{certificate_of};

    ghost has = { λ s number row. HoldsStart value_meaning s.image (certificate_of s.cert) row × S.serves s.serving number };

    fn passes(&self, number: u32, row: &Row<Value>) -> bool {
        holds_start(self.image, self.cert, row) && self.serving.serves(number)
    }
}

/// The number of a row that holds all that may stand at the start, where a further condition holds of that number, and nothing where
/// there is no such row. Which of several isn't said. Rows are counted from 1. It takes no memory.
pub fn start_row<S: Serving>(image: &Image, cert: &Cert, serving: &S) -> Option<u32>
    ensures { IsFound (IsStartRow value_meaning image.now (certificate_of cert.now) (S.serves serving.now)) cert.now.rows result }
{
    let starting = Starting {
        image,
        cert,
        serving,
    };
    find_row(cert, cert.start(), &starting)
}
