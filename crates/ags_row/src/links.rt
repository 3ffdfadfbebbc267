//! Links between A and a cell.

ghost use Rattle.std.specs.Prelude.{◌≡◌};
ghost use Rattle.ags_row.specs.Link.{is_link};

use ags_word::ERASABLE;

/// The greatest difference of two words' values.
const MOST_OFFSET: i32 = 262_143;

/// A link says that the value of A and an offset make the value of a cell.
#[derive(Clone, Copy, Debug, PartialEq, Eq)]
pub struct Link {
    /// The cell's address.
    pub address: u16,
    /// What is added to the value of A.
    pub offset: i32,
}

/// Whether a link may stand in a row: where there is one its cell is erasable, and its offset a difference of two words' values.
pub fn is_link(link: Option<Link>) -> bool
    ensures { result ≡ is_link link }
{
    match link {
        Some(link) => {
            link.address < ERASABLE && -MOST_OFFSET <= link.offset && link.offset <= MOST_OFFSET
        }
        None => true,
    }
}
