//! The orders that work on A alone, or on A and Q.

ghost use Rattle.std.specs.Prelude.{◌≡◌, ◌<◌, ◌%◌, ℕ};
ghost use Rattle.ags_isa.specs.declared.orders.Order.TheVariants.{Abs, Als, Com, Lls, Lrs};
ghost use Rattle.ags_safe.specs.Line.{IsPostOf, moves_on};
ghost use Rattle.ags_safe.specs.Posts.{IsPosts};
ghost use Rattle.ags_transfer.specs.Outcome.{outcome_of};
ghost use Rattle.ags_transfer.specs.Decision.{single_pair};

use crate::cases::Case;
use ags_domain::Domain;
use ags_row::Post;
use ags_safe::Stop;

/// The count of a shift: an address modulo 64.
fn count_of(y: u16) -> u32
    ensures same { result ≡ y % 64 }
    ensures below { result < 64 }
{
    u32::from(y % 64)
}

impl<'a, D: Domain> Case<'a, D> {
    /// COM: A becomes its negative.
    pub(crate) fn com(&self, post: &mut Post<D>) -> Result<(), Stop<D>>
        requires moves_on { IsPostOf D.meaning self.now (moves_on self.now) post.old }
        ensures { (e y : ℕ) → IsPosts D.meaning self.now Com e y (outcome_of result (single_pair post.new)) }
    {
        self.unlinks(post);
        self.computed(self.a().com(), post)
    }

    /// ABS: A becomes its size.
    pub(crate) fn abs(&self, post: &mut Post<D>) -> Result<(), Stop<D>>
        requires moves_on { IsPostOf D.meaning self.now (moves_on self.now) post.old }
        ensures { (e y : ℕ) → IsPosts D.meaning self.now Abs e y (outcome_of result (single_pair post.new)) }
    {
        self.unlinks(post);
        self.computed(self.a().abs(), post)
    }

    /// ALS: A is shifted to the left.
    pub(crate) fn als(&self, y: u16, post: &mut Post<D>) -> Result<(), Stop<D>>
        requires moves_on { IsPostOf D.meaning self.now (moves_on self.now) post.old }
        ensures { (e : ℕ) → IsPosts D.meaning self.now Als e y (outcome_of result (single_pair post.new)) }
    {
        self.unlinks(post);
        self.computed(self.a().als(count_of(y)), post)
    }

    /// LLS: A and Q are shifted to the left.
    pub(crate) fn lls(&self, y: u16, post: &mut Post<D>) -> Result<(), Stop<D>>
        requires moves_on { IsPostOf D.meaning self.now (moves_on self.now) post.old }
        ensures { (e : ℕ) → IsPosts D.meaning self.now Lls e y (outcome_of result (single_pair post.new)) }
    {
        self.frees_q(post);
        self.computed(self.a().lls_high(count_of(y)), post)
    }

    /// LRS: A and Q are shifted to the right.
    pub(crate) fn lrs(&self, y: u16, post: &mut Post<D>) -> Result<(), Stop<D>>
        requires moves_on { IsPostOf D.meaning self.now (moves_on self.now) post.old }
        ensures { (e : ℕ) → IsPosts D.meaning self.now Lrs e y (outcome_of result (single_pair post.new)) }
    {
        self.frees_q(post);
        post.a = self.a().lrs_high(count_of(y));
        Ok(())
    }
}
