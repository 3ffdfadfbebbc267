//! Two images, location by location.

ghost use Rattle.ags_compare.specs.Comparison.{IsComparison};

use ags_image::Image;
use ags_word::{LOCATIONS, Word};

/// How two images compare.
#[derive(Clone, Copy)]
pub enum Compared {
    /// Both have the same word, or both have none, at each of the 4096 locations.
    Equal,
    /// They differ at this location, and at no lower one.
    Differs {
        /// The location, below 4096.
        location: u16,
        /// The word of the left image there, if it has one.
        left: Option<Word>,
        /// The word of the right image there, if it has one.
        right: Option<Word>,
    },
}

/// Compares two images (docs/SOURCE.md, Comparison).
pub fn compare(left: &Image, right: &Image) -> Compared
    ensures { IsComparison left.now right.now result }
{
    for location in 0..LOCATIONS {
        let one = left.get(location);
        let other = right.get(location);
        if one != other {
            return Compared::Differs {
                location,
                left: one,
                right: other,
            };
        }
    }
    Compared::Equal
}
