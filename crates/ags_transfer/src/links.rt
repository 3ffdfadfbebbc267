//! What an order leaves of the link of A to a cell.

ghost use Rattle.std.specs.Prelude.{◌≡◌, neg_ℤ, true, Some};
ghost use Rattle.ags_word.specs.Word.{val};
ghost use Rattle.ags_row.specs.Link.{is_link};
ghost use Rattle.ags_safe.specs.Linked.{link_to, link_of, link_grown, link_beside, link_with};

use crate::cases::Case;
use ags_domain::Domain;
use ags_row::{Link, is_link as may_stand};
use ags_word::{ERASABLE, Word};

/// The link of an A that has the value of the cell, where that is an erasable one.
pub(crate) fn link_to(e: u16) -> Option<Link>
    ensures { result ≡ link_to e }
{
    if e < ERASABLE {
        Some(Link {
            address: e,
            offset: 0,
        })
    } else {
        None
    }
}

/// A link, where it may stand in a row.
fn standing(link: Link) -> Option<Link>
    ensures { result ≡ link_of link.address link.offset }
{
    if may_stand(Some(link)) {
        Some(link)
    } else {
        None
    }
}

/// The link after A has grown by the value of a word.
fn after_sum(link: Link, word: Word) -> Option<Link>
    requires { is_link (Some link) ≡ true }
    ensures { result ≡ link_grown (Some link) (val word) }
{
    standing(Link {
        address: link.address,
        offset: link.offset - word.value(),
    })
}

/// The link after A has shrunk by the value of a word.
fn after_difference(link: Link, word: Word) -> Option<Link>
    requires { is_link (Some link) ≡ true }
    ensures { result ≡ link_grown (Some link) (neg_ℤ (val word)) }
{
    standing(Link {
        address: link.address,
        offset: word.value() + link.offset,
    })
}

impl<'a, D: Domain> Case<'a, D> {
    /// The link after the cell was added to A: the cell holds one word alone.
    pub(crate) fn link_of_sum(&self, m: &D) -> Option<Link>
        ensures { result ≡ link_with self.now.row.link (λ n. n) (D.meaning.ends m.now) }
    {
        match self.row.link() {
            Some(link) => {
                let least = m.least();
                if least == m.greatest() {
                    after_sum(link, least)
                } else {
                    None
                }
            }
            None => None,
        }
    }

    /// The link after the cell was taken away from A: the cell holds one word alone.
    pub(crate) fn link_of_difference(&self, m: &D) -> Option<Link>
        ensures { result ≡ link_with self.now.row.link neg_ℤ (D.meaning.ends m.now) }
    {
        match self.row.link() {
            Some(link) => {
                let least = m.least();
                if least == m.greatest() {
                    after_difference(link, least)
                } else {
                    None
                }
            }
            None => None,
        }
    }

    /// The link after another word was stored at an address.
    pub(crate) fn link_beside(&self, e: u16) -> Option<Link>
        ensures { result ≡ link_beside self.now.row.link e }
    {
        match self.row.link() {
            Some(link) => { if link.address == e { None } else { Some(link) } }
            None => None,
        }
    }
}
