//! The orders that say where the machine goes on, and those that set and count the index register.

ghost use Rattle.std.specs.Prelude.{◌≡◌, ℕ, Ok};
ghost use Rattle.ags_domain.specs.Domain.{IsPart, is_negative, is_not_negative};
ghost use Rattle.ags_isa.specs.declared.orders.Order.TheVariants.{Axt, Dly, Tix, Tmi, Tov, Tra, Tsq};
ghost use Rattle.ags_safe.specs.Line.{Line, IsPostOf, moves_on};
ghost use Rattle.ags_safe.specs.Posts.{IsPosts, IsPostLinked, IsPostOfPart, pair_of};
ghost use Rattle.ags_transfer.specs.Outcome.{outcome_of};
ghost use Rattle.ags_transfer.specs.Decision.{single_pair};

use crate::cases::Case;
use ags_domain::Domain;
use ags_isa::{Order, encode};
use ags_row::{At, Post};
use ags_safe::{PostPair, Stop};

/// Two posts that may be there: a single one is the first.
fn pair_of<D: Domain>(first: Option<Post<D>>, second: Option<Post<D>>) -> PostPair<D>
    ensures { (case : _) → result ≡ pair_of D.meaning case first second }
{
    match first {
        Some(first) => PostPair {
            first: Some(first),
            second,
        },
        None => PostPair {
            first: second,
            second: None,
        },
    }
}

impl<'a, D: Domain> Case<'a, D> {
    /// TRA: goes to an address.
    pub(crate) fn tra(&self, e: u16, post: &mut Post<D>) -> Result<(), Stop<D>>
        requires moves_on { IsPostOf D.meaning self.now (moves_on self.now) post.old }
        ensures { (y : ℕ) → IsPosts D.meaning self.now Tra e y (outcome_of result (single_pair post.new)) }
    {
        post.next = e;
        Ok(())
    }

    /// A post whose A is a set in hand, with the row's linked cell narrowed by it; there is none where nothing is left of the cell.
    fn narrowed(&self, a: D, post: Post<D>) -> Option<Post<D>>
        ensures { (line : Line D) → IsPostOf D.meaning self.now line post
            → IsPostLinked D.meaning self.now self.now.row.link (D.meaning.ends a) line result }
    {
        match self.row.link() {
            Some(link) => {
                let least = a.least().value() + link.offset;
                let greatest = a.greatest().value() + link.offset;
                match self.cell(link.address).between(least, greatest) {
                    Some(value) => Some(Post {
                        narrowed: Some(At {
                            address: link.address,
                            value,
                        }),
                        ..post
                    }),
                    None => None,
                }
            }
            None => Some(post),
        }
    }

    /// A post with a part of A, where there is one, and with the row's linked cell narrowed by that part.
    fn with_part(&self, part: Option<D>, post: Post<D>) -> Option<Post<D>>
        ensures { (line : Line D) → IsPostOf D.meaning self.now line post → IsPostOfPart D.meaning self.now line part result }
    {
        match part {
            Some(a) => self.narrowed(a, Post { a, ..post }),
            None => None,
        }
    }

    /// The part of A whose words are negative.
    fn negative_part(&self) -> Option<D>
        ensures { IsPart D.meaning is_negative self.now.row.a result }
    {
        self.a().negative()
    }

    /// The part of A whose words aren't negative.
    fn rest_part(&self) -> Option<D>
        ensures { IsPart D.meaning is_not_negative self.now.row.a result }
    {
        self.a().rest()
    }

    /// TMI: goes there where A is negative. It alone may leave two posts, and stands apart for their room.
    #[inline(never)]
    pub(crate) fn tmi(&self, e: u16) -> PostPair<D>
        ensures { (y : ℕ) → IsPosts D.meaning self.now Tmi e y (Ok result) }
    {
        let taken = self.with_part(self.negative_part(), self.goes_to(e));
        let rest = self.with_part(self.rest_part(), self.moves_on());
        pair_of(taken, rest)
    }

    /// TOV: where the indicator is set, clears it and goes there.
    pub(crate) fn tov(&self, e: u16, post: &mut Post<D>) -> Result<(), Stop<D>>
        requires moves_on { IsPostOf D.meaning self.now (moves_on self.now) post.old }
        ensures { (y : ℕ) → IsPosts D.meaning self.now Tov e y (outcome_of result (single_pair post.new)) }
    {
        if self.indicator {
            post.next = e;
            post.v0 = true;
            post.v1 = false;
        }
        Ok(())
    }

    /// TIX: where the index isn't 0, lowers it by one and goes there.
    pub(crate) fn tix(&self, y: u16, post: &mut Post<D>) -> Result<(), Stop<D>>
        requires moves_on { IsPostOf D.meaning self.now (moves_on self.now) post.old }
        ensures { (e : ℕ) → IsPosts D.meaning self.now Tix e y (outcome_of result (single_pair post.new)) }
    {
        if self.index != 0 {
            post.next = y;
            post.x = self.index - 1;
        }
        Ok(())
    }

    /// AXT: the index becomes an address modulo 8.
    pub(crate) fn axt(&self, y: u16, post: &mut Post<D>) -> Result<(), Stop<D>>
        requires moves_on { IsPostOf D.meaning self.now (moves_on self.now) post.old }
        ensures { (e : ℕ) → IsPosts D.meaning self.now Axt e y (outcome_of result (single_pair post.new)) }
    {
        post.x = (y % 8) as u8;
        Ok(())
    }

    /// TSQ: Q becomes the order that goes back to the next location, and it goes to an address.
    pub(crate) fn tsq(&self, e: u16, post: &mut Post<D>) -> Result<(), Stop<D>>
        requires moves_on { IsPostOf D.meaning self.now (moves_on self.now) post.old }
        ensures { (y : ℕ) → IsPosts D.meaning self.now Tsq e y (outcome_of result (single_pair post.new)) }
    {
        let back = encode(&self.machine.codes, Order::Tra, false, self.next());
        post.next = e;
        post.q = D::of_word(back);
        Ok(())
    }

    /// DLY: the location becomes an address, and the machine waits there.
    pub(crate) fn dly(&self, y: u16, post: &mut Post<D>) -> Result<(), Stop<D>>
        requires moves_on { IsPostOf D.meaning self.now (moves_on self.now) post.old }
        ensures { (e : ℕ) → IsPosts D.meaning self.now Dly e y (outcome_of result (single_pair post.new)) }
    {
        post.next = y;
        Ok(())
    }
}
