//! The posts of a case: its word is read, and the order that it names is judged.

ghost use Rattle.std.specs.Prelude.{◌≡◌, ◌≢◌, ◌<◌, ◌+◌, None, IfOk, OnErr, Ok};
ghost use Rattle.ags_isa.specs.declared.orders.Order.TheVariants.{Tmi};
ghost use Rattle.ags_ports.specs.declared.events.Event.TheVariants.{Step};
ghost use Rattle.ags_ports.specs.declared.events.Done.{Done};
ghost use Rattle.ags_ports.specs.State.{State, IsState};
ghost use Rattle.ags_ports.specs.Step.{Steps as IsStep};
ghost use Rattle.ags_safe.specs.Case.{case_of};
ghost use Rattle.ags_safe.specs.InRow.{IsInCase};
ghost use Rattle.ags_safe.specs.OneStep.{Follows};
ghost use Rattle.ags_safe.specs.Going.{GoWithin};
ghost use Rattle.ags_safe.specs.Line.{IsPostOf, moves_on};
ghost use Rattle.ags_safe.specs.Posts.{IsPosts, IsPostsOfCase};
ghost use Rattle.ags_transfer.specs.Outcome.{outcome_of};
ghost use Rattle.ags_transfer.specs.Decision.{single_pair};
ghost use Rattle.ags_safe.specs.declared.answers.PostPair.{PostPair};

use crate::cases::Case;
use ags_domain::Domain;
use ags_image::Image;
use ags_isa::{Order, decode};
use ags_ports::laws::machine_is_made_of_tables;
use ags_ports::{Machine, effective_address};
use ags_row::{Limits, Post, Row};
use ags_safe::post_laws::{one_step_follows_the_posts, posts_go_to_locations};
use ags_safe::{PostPair, Stop};
use ags_steps::Steps;
use ags_word::Word;
use std::sync::ledger::Ledger;

/// The posts of a case, or the first reason why the checker stops at it. The case is told by a word, an index and an indicator; the
/// checker asks of those that the row has. Where there are posts, the step of the machine from each state of the case follows them
/// (docs/CHECKER.md, What an order leaves). Each post goes to a location of the memory. The call is one step of the counter, also
/// where it stops.
pub fn posts<D: Domain, L: Ledger>(
    machine: &Machine,
    image: &Image,
    limits: &Limits<D>,
    base: &Row<D>,
    word: Word,
    x: u8,
    v: bool,
    steps: &mut Steps<L>,
) -> Result<PostPair<D>, Stop<D>>
    requires { x < 8 }
    ensures posts { IsPostsOfCase D.meaning (case_of machine.now image.now limits.now base.now word x v) result }
    ensures one_step { (s : State) (report : Done) (after : State) (pair : PostPair D) → result ≡ Ok pair
        → IsState machine.now s → IsInCase D.meaning (case_of machine.now image.now limits.now base.now word x v) s
        → IsStep machine.now s Step report after
        → Follows D.meaning (case_of machine.now image.now limits.now base.now word x v) pair report after }
    ensures below { IfOk result GoWithin }
    ensures step { steps.new ≡ steps.old + 1 }
{
    machine_is_made_of_tables(machine);
    one_step_follows_the_posts::<D>();
    let mut pair = PostPair {
        first: None,
        second: None,
    };
    match put_posts(machine, image, limits, base, word, x, v, steps, &mut pair) {
        Ok(()) => Ok(pair),
        Err(stop) => Err(stop),
    }
}

/// The same posts, put into a pair at hand that has no second one, so that none is moved. Where the checker stops, the pair is
/// unchanged.
pub fn put_posts<D: Domain, L: Ledger>(
    machine: &Machine,
    image: &Image,
    limits: &Limits<D>,
    base: &Row<D>,
    word: Word,
    x: u8,
    v: bool,
    steps: &mut Steps<L>,
    pair: &mut PostPair<D>,
) -> Result<(), Stop<D>>
    requires index { x < 8 }
    requires no_second { pair.old.second ≡ None }
    ensures posts { IsPostsOfCase D.meaning (case_of machine.now image.now limits.now base.now word x v) (outcome_of result pair.new) }
    ensures below { IfOk (outcome_of result pair.new) GoWithin }
    ensures stopped { OnErr result (pair.new ≡ pair.old) }
    ensures step { steps.new ≡ steps.old + 1 }
{
    steps.tick();
    posts_go_to_locations::<D>();
    let case = Case {
        machine,
        image,
        limits,
        row: base,
        word,
        index: x,
        indicator: v,
    };
    case.put_posts(pair)
}

impl<'a, D: Domain> Case<'a, D> {
    /// Puts the posts of the case into a pair, unless it stops.
    fn put_posts(&self, pair: &mut PostPair<D>) -> Result<(), Stop<D>>
        requires index { self.now.index < 8 }
        requires no_second { pair.old.second ≡ None }
        ensures posts { IsPostsOfCase D.meaning self.now (outcome_of result pair.new) }
        ensures stopped { OnErr result (pair.new ≡ pair.old) }
    {
        match decode(&self.machine.codes, self.word) {
            Some(decoded) => {
                let e = effective_address(decoded, self.index);
                self.put_order(decoded.order, e, decoded.address, pair)
            }
            None => Err(Stop::NoOrder),
        }
    }

    /// The same of an order at an address y, where it acts on an address e.
    fn put_order(&self, order: Order, e: u16, y: u16, pair: &mut PostPair<D>) -> Result<(), Stop<D>>
        requires acts_on { e < 4096 }
        requires address { y < 4096 }
        requires no_second { pair.old.second ≡ None }
        ensures posts { IsPosts D.meaning self.now order e y (outcome_of result pair.new) }
        ensures stopped { OnErr result (pair.new ≡ pair.old) }
    {
        match order {
            Order::Tmi => {
                *pair = self.tmi(e);
                Ok(())
            }
            _ => self.put_one(order, e, y, pair),
        }
    }

    /// The same of an order other than TMI, which alone may leave two posts.
    fn put_one(&self, order: Order, e: u16, y: u16, pair: &mut PostPair<D>) -> Result<(), Stop<D>>
        requires acts_on { e < 4096 }
        requires address { y < 4096 }
        requires one { order ≢ Tmi }
        requires no_second { pair.old.second ≡ None }
        ensures posts { IsPosts D.meaning self.now order e y (outcome_of result pair.new) }
        ensures stopped { OnErr result (pair.new ≡ pair.old) }
    {
        let mut post = self.moves_on();
        match self.change(order, e, y, &mut post) {
            Ok(()) => {
                pair.first = Some(post);
                Ok(())
            }
            Err(stop) => Err(stop),
        }
    }

    /// Lets a post that moves on be what such an order leaves. It stands apart, so that the room that each of the 26 orders needs isn't
    /// cleared for every case.
    #[inline(never)]
    fn change(&self, order: Order, e: u16, y: u16, post: &mut Post<D>) -> Result<(), Stop<D>>
        requires acts_on { e < 4096 }
        requires address { y < 4096 }
        requires one { order ≢ Tmi }
        requires moves_on { IsPostOf D.meaning self.now (moves_on self.now) post.old }
        ensures { IsPosts D.meaning self.now order e y (outcome_of result (single_pair post.new)) }
    {
        match order {
            Order::Abs => self.abs(post),
            Order::Add => self.add(e, post),
            Order::Adz => self.adz(e, post),
            Order::Als => self.als(y, post),
            Order::Axt => self.axt(y, post),
            Order::Cla => self.cla(e, post),
            Order::Clz => self.clz(e, post),
            Order::Com => self.com(post),
            Order::Dly => self.dly(y, post),
            Order::Dvp => self.dvp(e, post),
            Order::Inp => self.inp(y, post),
            Order::Ldq => self.ldq(e, post),
            Order::Lls => self.lls(y, post),
            Order::Lrs => self.lrs(y, post),
            Order::Mpr => self.mpr(e, post),
            Order::Mpy => self.mpy(e, post),
            Order::Mpz => self.mpz(e, post),
            Order::Out => self.out(y, post),
            Order::Sto => self.sto(e, post),
            Order::Stq => self.stq(e, post),
            Order::Sub => self.sub(e, post),
            Order::Suz => self.suz(e, post),
            Order::Tix => self.tix(y, post),
            Order::Tmi => unreachable!(),
            Order::Tov => self.tov(e, post),
            Order::Tra => self.tra(e, post),
            Order::Tsq => self.tsq(e, post),
        }
    }
}
