//! The orders that multiply by the cell, or divide by it.

ghost use Rattle.std.specs.Prelude.{◌<◌, ℕ};
ghost use Rattle.ags_isa.specs.declared.orders.Order.TheVariants.{Dvp, Mpr, Mpy, Mpz};
ghost use Rattle.ags_safe.specs.Line.{IsPostOf, moves_on};
ghost use Rattle.ags_safe.specs.Posts.{IsPosts};
ghost use Rattle.ags_transfer.specs.Outcome.{outcome_of};
ghost use Rattle.ags_transfer.specs.Decision.{single_pair};

use crate::cases::Case;
use ags_domain::Domain;
use ags_row::Post;
use ags_safe::Stop;
use ags_word::ERASABLE;

impl<'a, D: Domain> Case<'a, D> {
    /// MPY: A and Q become the product.
    pub(crate) fn mpy(&self, e: u16, post: &mut Post<D>) -> Result<(), Stop<D>>
        requires address { e < 4096 }
        requires moves_on { IsPostOf D.meaning self.now (moves_on self.now) post.old }
        ensures { (y : ℕ) → IsPosts D.meaning self.now Mpy e y (outcome_of result (single_pair post.new)) }
    {
        let m = self.cell(e);
        self.frees_q(post);
        self.computed(self.a().mul_high(&m), post)
    }

    /// MPR: A becomes the rounded product, and Q is that of MPY.
    pub(crate) fn mpr(&self, e: u16, post: &mut Post<D>) -> Result<(), Stop<D>>
        requires address { e < 4096 }
        requires moves_on { IsPostOf D.meaning self.now (moves_on self.now) post.old }
        ensures { (y : ℕ) → IsPosts D.meaning self.now Mpr e y (outcome_of result (single_pair post.new)) }
    {
        let m = self.cell(e);
        self.frees_q(post);
        self.computed(self.a().mul_round(&m), post)
    }

    /// MPZ: as MPR, and then the cell is cleared.
    pub(crate) fn mpz(&self, e: u16, post: &mut Post<D>) -> Result<(), Stop<D>>
        requires address { e < 4096 }
        requires moves_on { IsPostOf D.meaning self.now (moves_on self.now) post.old }
        ensures { (y : ℕ) → IsPosts D.meaning self.now Mpz e y (outcome_of result (single_pair post.new)) }
    {
        if e >= ERASABLE {
            return Err(Stop::FixedWrite { address: e });
        }
        let m = self.cell(e);
        self.frees_q(post);
        self.computed_and_cleared(e, self.a().mul_round(&m), post)
    }

    /// DVP: A becomes the quotient of A and Q by the cell.
    pub(crate) fn dvp(&self, e: u16, post: &mut Post<D>) -> Result<(), Stop<D>>
        requires address { e < 4096 }
        requires moves_on { IsPostOf D.meaning self.now (moves_on self.now) post.old }
        ensures { (y : ℕ) → IsPosts D.meaning self.now Dvp e y (outcome_of result (single_pair post.new)) }
    {
        let m = self.cell(e);
        self.unlinks(post);
        self.computed(self.a().quotient(&m), post)
    }
}
