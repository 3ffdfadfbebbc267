//! The words that may stand at a row's location.

ghost use Rattle.ags_safe.specs.Case.{IsCode};

use ags_domain::{Domain, WordSet};
use ags_image::Image;
use ags_row::{Limits, Row, cell_of};
use ags_word::ERASABLE;

/// The words that may stand at a row's location: the one word of a fixed cell; of an erasable one those that it may hold, and
/// nothing where these are more than 16 (docs/CHECKER.md, What is known).
pub fn code<D: Domain>(image: &Image, limits: &Limits<D>, base: &Row<D>) -> Option<WordSet>
    ensures { IsCode D.meaning image.now limits.now base.now result }
{
    let location = base.location();
    if location < ERASABLE {
        cell_of(base, limits, location).few()
    } else {
        WordSet::of(&[image.word_at(location)])
    }
}
