//! The orders that add the cell, or take it away.

ghost use Rattle.std.specs.Prelude.{◌<◌, ℕ, neg_ℤ};
ghost use Rattle.ags_isa.specs.declared.orders.Order.TheVariants.{Add, Adz, Sub, Suz};
ghost use Rattle.ags_safe.specs.Line.{IsPostOf, moves_on};
ghost use Rattle.ags_safe.specs.Posts.{IsPosts, grows_by};
ghost use Rattle.ags_transfer.specs.Outcome.{outcome_of};
ghost use Rattle.ags_transfer.specs.Decision.{single_pair};

use crate::cases::Case;
use ags_domain::Domain;
use ags_row::Post;
use ags_safe::Stop;
use ags_word::ERASABLE;

impl<'a, D: Domain> Case<'a, D> {
    /// Lets a post that moves on have the link after the cell was added to A.
    fn grows(&self, m: &D, post: &mut Post<D>)
        requires { IsPostOf D.meaning self.now (moves_on self.now) post.old }
        ensures { IsPostOf D.meaning self.now (grows_by D.meaning self.now (λ n. n) (D.meaning.ends m.now)) post.new }
    {
        post.link = self.link_of_sum(m);
    }

    /// Lets a post that moves on have the link after the cell was taken away from A.
    fn shrinks(&self, m: &D, post: &mut Post<D>)
        requires { IsPostOf D.meaning self.now (moves_on self.now) post.old }
        ensures { IsPostOf D.meaning self.now (grows_by D.meaning self.now neg_ℤ (D.meaning.ends m.now)) post.new }
    {
        post.link = self.link_of_difference(m);
    }

    /// ADD: A becomes its sum with the cell.
    pub(crate) fn add(&self, e: u16, post: &mut Post<D>) -> Result<(), Stop<D>>
        requires address { e < 4096 }
        requires moves_on { IsPostOf D.meaning self.now (moves_on self.now) post.old }
        ensures { (y : ℕ) → IsPosts D.meaning self.now Add e y (outcome_of result (single_pair post.new)) }
    {
        let m = self.cell(e);
        self.grows(&m, post);
        self.computed(self.a().add(&m), post)
    }

    /// SUB: A becomes A less the cell.
    pub(crate) fn sub(&self, e: u16, post: &mut Post<D>) -> Result<(), Stop<D>>
        requires address { e < 4096 }
        requires moves_on { IsPostOf D.meaning self.now (moves_on self.now) post.old }
        ensures { (y : ℕ) → IsPosts D.meaning self.now Sub e y (outcome_of result (single_pair post.new)) }
    {
        let m = self.cell(e);
        self.shrinks(&m, post);
        self.computed(self.a().sub(&m), post)
    }

    /// ADZ: as ADD, and then the cell is cleared.
    pub(crate) fn adz(&self, e: u16, post: &mut Post<D>) -> Result<(), Stop<D>>
        requires address { e < 4096 }
        requires moves_on { IsPostOf D.meaning self.now (moves_on self.now) post.old }
        ensures { (y : ℕ) → IsPosts D.meaning self.now Adz e y (outcome_of result (single_pair post.new)) }
    {
        if e >= ERASABLE {
            return Err(Stop::FixedWrite { address: e });
        }
        let m = self.cell(e);
        self.unlinks(post);
        self.computed_and_cleared(e, self.a().add(&m), post)
    }

    /// SUZ: as SUB, and then the cell is cleared.
    pub(crate) fn suz(&self, e: u16, post: &mut Post<D>) -> Result<(), Stop<D>>
        requires address { e < 4096 }
        requires moves_on { IsPostOf D.meaning self.now (moves_on self.now) post.old }
        ensures { (y : ℕ) → IsPosts D.meaning self.now Suz e y (outcome_of result (single_pair post.new)) }
    {
        if e >= ERASABLE {
            return Err(Stop::FixedWrite { address: e });
        }
        let m = self.cell(e);
        self.unlinks(post);
        self.computed_and_cleared(e, self.a().sub(&m), post)
    }
}
