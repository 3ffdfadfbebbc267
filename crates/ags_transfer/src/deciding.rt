//! What is answered once a post is known.

ghost use Rattle.std.specs.Prelude.{◌≡◌, ◌<◌, ◌||◌, None, if◌then◌else◌};
ghost use Rattle.ags_safe.specs.Told.{Told, IsTold};
ghost use Rattle.ags_safe.specs.Line.{Line, IsPostOf};
ghost use Rattle.ags_safe.specs.Posts.{IsSingle, Decides, IsStored, IsCleared};
ghost use Rattle.ags_transfer.specs.Outcome.{outcome_of};
ghost use Rattle.ags_transfer.specs.Decision.{single_pair, IsDecided};

use crate::cases::Case;
use ags_domain::{Domain, Operands};
use ags_row::{At, Post};
use ags_safe::Stop;
use ags_word::Word;

/// What A may hold after an operation, and whether the indicator may be set by it.
#[derive(Clone, Copy)]
pub(crate) struct NewA<D> {
    a: D,
    may_set: bool,
}

impl<D: Copy> NewA<D> {
    /// Puts this new A into a post; where the indicator may be set by it, no link holds.
    fn put_into(self, post: &mut Post<D>)
        ensures { post.new ≡ record post.old { a = self.a; v1 = post.old.v1 || self.may_set; link = if self.may_set then None else post.old.link } }
    {
        post.a = self.a;
        if self.may_set {
            post.v1 = true;
            post.link = None;
        }
    }
}

impl<'a, D: Domain> Case<'a, D> {
    /// Lets a post store some words to an erasable cell, where they are within the cell's limit.
    pub(crate) fn stored(&self, e: u16, value: D, post: &mut Post<D>) -> Result<(), Stop<D>>
        requires { e < 2048 }
        ensures { (line : Line D) (told : Told D) → IsTold D.meaning told value → IsPostOf D.meaning self.now line post.old
            → IsStored D.meaning self.now e told line (outcome_of result (single_pair post.new)) }
    {
        if !value.within(&self.limits.cell(e)) {
            return Err(Stop::CellRange { address: e, value });
        }
        post.stored = Some(At { address: e, value });
        Ok(())
    }

    /// Lets a post store 0 to an erasable cell, where that is within the cell's limit.
    pub(crate) fn cleared(&self, e: u16, post: &mut Post<D>) -> Result<(), Stop<D>>
        requires { e < 2048 }
        ensures { (line : Line D) → IsPostOf D.meaning self.now line post.old
            → IsCleared D.meaning self.now e line (outcome_of result (single_pair post.new)) }
    {
        self.stored(e, D::of_word(Word::ZERO), post)
    }

    /// What goes on from the domain's answer for A. Where some operands overflow, a named place goes on with any A.
    fn decided(&self, answer: Result<D, Operands>) -> Result<NewA<D>, Stop<D>>
        ensures { IsDecided D.meaning self.now answer result }
    {
        match answer {
            Ok(a) => Ok(NewA { a, may_set: false }),
            Err(operands) => {
                if self.limits.may(self.row.location()) {
                    Ok(NewA {
                        a: D::full(),
                        may_set: true,
                    })
                } else {
                    Err(Stop::MayOverflow(operands))
                }
            }
        }
    }

    /// Lets the one post have what the domain answered for A.
    pub(crate) fn computed(
        &self,
        answer: Result<D, Operands>,
        post: &mut Post<D>,
    ) -> Result<(), Stop<D>>
        ensures { (line : Line D) → IsPostOf D.meaning self.now line post.old
            → Decides D.meaning self.now line (IsSingle D.meaning self.now) answer (outcome_of result (single_pair post.new)) }
    {
        match self.decided(answer) {
            Ok(new) => {
                new.put_into(post);
                Ok(())
            }
            Err(stop) => Err(stop),
        }
    }

    /// Lets the one post have what the domain answered for A, and clear a cell.
    pub(crate) fn computed_and_cleared(
        &self,
        e: u16,
        answer: Result<D, Operands>,
        post: &mut Post<D>,
    ) -> Result<(), Stop<D>>
        requires { e < 2048 }
        ensures { (line : Line D) → IsPostOf D.meaning self.now line post.old
            → Decides D.meaning self.now line (IsCleared D.meaning self.now e) answer (outcome_of result (single_pair post.new)) }
    {
        match self.decided(answer) {
            Ok(new) => {
                new.put_into(post);
                self.cleared(e, post)
            }
            Err(stop) => Err(stop),
        }
    }
}
