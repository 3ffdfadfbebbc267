//! A case, and what stays as it is in it.

ghost use Rattle.std.specs.Prelude.{◌≡◌, ◌<◌};
ghost use Rattle.ags_safe.specs.Case.{next_of_row};
ghost use Rattle.ags_safe.specs.Told.{IsTold, AreCellsTold};
ghost use Rattle.ags_safe.specs.Line.{moves_on, cell_in_case, code_cell, IsPostOf};
ghost use Rattle.ags_safe.specs.Posts.{loads, frees_q, unlinks};

use ags_domain::Domain;
use ags_image::Image;
use ags_ports::Machine;
use ags_row::{At, Limits, Post, Row, cell_of};
use ags_word::{ERASABLE, LOCATIONS, Word};
use std::marker::Model;

/// What is judged at once: a row, and one word of its code, one index and one indicator.
#[derive(Drop)]
pub(crate) struct Case<'a, D: Domain> {
    pub(crate) machine: &'a Machine,
    pub(crate) image: &'a Image,
    pub(crate) limits: &'a Limits<D>,
    pub(crate) row: &'a Row<D>,
    pub(crate) word: Word,
    pub(crate) index: u8,
    pub(crate) indicator: bool,
}

impl<'a, D: Domain> Model for Case<'a, D> {
    ghost use Rattle.ags_safe.specs.Case.{Case, case_of};

    ghost Value = { Case D };

    ghost view = { λ c. case_of c.machine.now c.image.now c.limits.now c.row.now c.word c.index c.indicator };
}

impl<'a, D: Domain> Case<'a, D> {
    /// The location after that of the row; after the last one comes the first.
    pub(crate) fn next(&self) -> u16
        ensures next { result ≡ next_of_row self.now.row }
        ensures below { result < 4096 }
    {
        (self.row.location() + 1) % LOCATIONS
    }

    /// The cell that is run from, where it is an erasable one, with the case's word.
    fn code_cell(&self) -> Option<At<D>>
        ensures { AreCellsTold D.meaning (code_cell self.now) result }
    {
        let address = self.row.location();
        if address < ERASABLE {
            Some(At {
                address,
                value: D::of_word(self.word),
            })
        } else {
            None
        }
    }

    /// What an erasable cell may hold.
    fn erasable_cell(&self, address: u16) -> D
        requires { address < 2048 }
        ensures { IsTold D.meaning (cell_in_case self.now address) result }
    {
        if address == self.row.location() {
            D::of_word(self.word)
        } else {
            cell_of(self.row, self.limits, address)
        }
    }

    /// What a cell may hold.
    pub(crate) fn cell(&self, address: u16) -> D
        requires { address < 4096 }
        ensures { IsTold D.meaning (cell_in_case self.now address) result }
    {
        if address < ERASABLE {
            self.erasable_cell(address)
        } else {
            D::of_word(self.image.word_at(address))
        }
    }

    /// What A may hold.
    pub(crate) fn a(&self) -> D
        ensures { result ≡ self.now.row.a }
    {
        self.row.a()
    }

    /// What Q may hold.
    pub(crate) fn q(&self) -> D
        ensures { result ≡ self.now.row.q }
    {
        self.row.q()
    }

    /// The post of an order that changes nothing and moves on.
    pub(crate) fn moves_on(&self) -> Post<D>
        ensures { IsPostOf D.meaning self.now (moves_on self.now) result }
    {
        self.goes_to(self.next())
    }

    /// The post of an order that goes to an address.
    pub(crate) fn goes_to(&self, e: u16) -> Post<D>
        ensures { IsPostOf D.meaning self.now (record (moves_on self.now) { next = e }) result }
    {
        Post {
            next: e,
            a: self.row.a(),
            q: self.row.q(),
            x: self.index,
            v0: !self.indicator,
            v1: self.indicator,
            stored: None,
            code: self.code_cell(),
            narrowed: None,
            link: self.row.link(),
        }
    }

    /// Lets a post that moves on lose the link.
    pub(crate) fn unlinks(&self, post: &mut Post<D>)
        requires { IsPostOf D.meaning self.now (moves_on self.now) post.old }
        ensures { IsPostOf D.meaning self.now (unlinks D.meaning self.now) post.new }
    {
        post.link = None;
    }

    /// Lets a post that moves on take the cell to A, without a link.
    pub(crate) fn loads(&self, e: u16, post: &mut Post<D>)
        requires cell { e < 4096 }
        requires moves_on { IsPostOf D.meaning self.now (moves_on self.now) post.old }
        ensures { IsPostOf D.meaning self.now (loads D.meaning self.now e) post.new }
    {
        self.unlinks(post);
        post.a = self.cell(e);
    }

    /// Lets a post that moves on leave any Q, without a link.
    pub(crate) fn frees_q(&self, post: &mut Post<D>)
        requires { IsPostOf D.meaning self.now (moves_on self.now) post.old }
        ensures { IsPostOf D.meaning self.now (frees_q D.meaning self.now) post.new }
    {
        self.unlinks(post);
        post.q = D::full();
    }
}
