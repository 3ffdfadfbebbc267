//! The orders that take a word from a cell, or store one.

ghost use Rattle.std.specs.Prelude.{◌<◌, ℕ};
ghost use Rattle.ags_isa.specs.declared.orders.Order.TheVariants.{Cla, Clz, Ldq, Sto, Stq};
ghost use Rattle.ags_safe.specs.Linked.{link_to, link_beside};
ghost use Rattle.ags_safe.specs.Line.{IsPostOf, moves_on};
ghost use Rattle.ags_safe.specs.Posts.{IsPosts};
ghost use Rattle.ags_transfer.specs.Outcome.{outcome_of};
ghost use Rattle.ags_transfer.specs.Decision.{single_pair};

use crate::cases::Case;
use crate::links::link_to;
use ags_domain::Domain;
use ags_row::Post;
use ags_safe::Stop;
use ags_word::ERASABLE;

impl<'a, D: Domain> Case<'a, D> {
    /// CLA: A becomes the cell.
    pub(crate) fn cla(&self, e: u16, post: &mut Post<D>) -> Result<(), Stop<D>>
        requires address { e < 4096 }
        requires moves_on { IsPostOf D.meaning self.now (moves_on self.now) post.old }
        ensures { (y : ℕ) → IsPosts D.meaning self.now Cla e y (outcome_of result (single_pair post.new)) }
    {
        self.loads(e, post);
        post.link = link_to(e);
        Ok(())
    }

    /// LDQ: Q becomes the cell.
    pub(crate) fn ldq(&self, e: u16, post: &mut Post<D>) -> Result<(), Stop<D>>
        requires address { e < 4096 }
        requires moves_on { IsPostOf D.meaning self.now (moves_on self.now) post.old }
        ensures { (y : ℕ) → IsPosts D.meaning self.now Ldq e y (outcome_of result (single_pair post.new)) }
    {
        post.q = self.cell(e);
        Ok(())
    }

    /// Lets a post that moves on link A to a cell.
    fn links_to(&self, e: u16, post: &mut Post<D>)
        requires { IsPostOf D.meaning self.now (moves_on self.now) post.old }
        ensures { IsPostOf D.meaning self.now (record (moves_on self.now) { link = link_to e }) post.new }
    {
        post.link = link_to(e);
    }

    /// Lets a post that moves on keep the link to a cell other than one.
    fn links_beside(&self, e: u16, post: &mut Post<D>)
        requires { IsPostOf D.meaning self.now (moves_on self.now) post.old }
        ensures { IsPostOf D.meaning self.now (record (moves_on self.now) { link = link_beside self.now.row.link e }) post.new }
    {
        post.link = self.link_beside(e);
    }

    /// STO: the cell becomes A.
    pub(crate) fn sto(&self, e: u16, post: &mut Post<D>) -> Result<(), Stop<D>>
        requires moves_on { IsPostOf D.meaning self.now (moves_on self.now) post.old }
        ensures { (y : ℕ) → IsPosts D.meaning self.now Sto e y (outcome_of result (single_pair post.new)) }
    {
        if e >= ERASABLE {
            return Err(Stop::FixedWrite { address: e });
        }
        self.links_to(e, post);
        self.stored(e, self.a(), post)
    }

    /// STQ: the cell becomes Q.
    pub(crate) fn stq(&self, e: u16, post: &mut Post<D>) -> Result<(), Stop<D>>
        requires moves_on { IsPostOf D.meaning self.now (moves_on self.now) post.old }
        ensures { (y : ℕ) → IsPosts D.meaning self.now Stq e y (outcome_of result (single_pair post.new)) }
    {
        if e >= ERASABLE {
            return Err(Stop::FixedWrite { address: e });
        }
        self.links_beside(e, post);
        self.stored(e, self.q(), post)
    }

    /// CLZ: as CLA, and then the cell is cleared.
    pub(crate) fn clz(&self, e: u16, post: &mut Post<D>) -> Result<(), Stop<D>>
        requires address { e < 4096 }
        requires moves_on { IsPostOf D.meaning self.now (moves_on self.now) post.old }
        ensures { (y : ℕ) → IsPosts D.meaning self.now Clz e y (outcome_of result (single_pair post.new)) }
    {
        if e >= ERASABLE {
            return Err(Stop::FixedWrite { address: e });
        }
        self.loads(e, post);
        self.cleared(e, post)
    }
}
