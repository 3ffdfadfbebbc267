//! The orders that take a word from a register, or give one.

ghost use Rattle.std.specs.Prelude.{◌<◌, ℕ};
ghost use Rattle.ags_isa.specs.declared.orders.Order.TheVariants.{Inp, Out};
ghost use Rattle.ags_safe.specs.Line.{IsPostOf, moves_on};
ghost use Rattle.ags_safe.specs.Posts.{IsPosts};
ghost use Rattle.ags_transfer.specs.Outcome.{outcome_of};
ghost use Rattle.ags_transfer.specs.Decision.{single_pair};

use crate::cases::Case;
use ags_domain::Domain;
use ags_row::Post;
use ags_safe::Stop;

impl<'a, D: Domain> Case<'a, D> {
    /// INP: A becomes the word of an input register.
    pub(crate) fn inp(&self, y: u16, post: &mut Post<D>) -> Result<(), Stop<D>>
        requires address { y < 4096 }
        requires moves_on { IsPostOf D.meaning self.now (moves_on self.now) post.old }
        ensures { (e : ℕ) → IsPosts D.meaning self.now Inp e y (outcome_of result (single_pair post.new)) }
    {
        match self.machine.ports.find_input(y) {
            Some(_) => {
                self.unlinks(post);
                post.a = self.limits.input(y);
                Ok(())
            }
            None => Err(Stop::BadPort),
        }
    }

    /// OUT: an output register becomes A.
    pub(crate) fn out(&self, y: u16, post: &mut Post<D>) -> Result<(), Stop<D>>
        requires address { y < 4096 }
        requires moves_on { IsPostOf D.meaning self.now (moves_on self.now) post.old }
        ensures { (e : ℕ) → IsPosts D.meaning self.now Out e y (outcome_of result (single_pair post.new)) }
    {
        match self.machine.ports.find_output(y) {
            Some(_) => {
                let value = self.a();
                if value.within(&self.limits.output(y)) {
                    Ok(())
                } else {
                    Err(Stop::OutputRange { address: y, value })
                }
            }
            None => Err(Stop::BadPort),
        }
    }
}
