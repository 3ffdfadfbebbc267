//! A program and its certificate, with what is kept of each row.

ghost use Rattle.std.specs.Prelude.{◌≡◌, ◌+◌, ◌-◌, ◌<◌, ◌≤◌, ℕ, Result, IfOk, Err, unwrap_or, length, slice_index_or};
ghost use Rattle.ags_domain.specs.Value.{value_meaning};
ghost use Rattle.ags_domain.specs.declared.values.Value.{Value};
ghost use Rattle.ags_image.specs.Image.{entry_at, with_word};
ghost use Rattle.ags_row.specs.declared.rows.Row.{Row};
ghost use Rattle.ags_verdict.specs.InOrder.{InOrder};
ghost use Rattle.ags_verdict.specs.Fault.{IsRowJudgedAt};
ghost use Rattle.ags_verdict.specs.Verdict.{IsVerdict};
ghost use Rattle.ags_verdict.specs.declared.verdicts.Verdict.{Verdict};
ghost use Rattle.ags_verdict.specs.Counting.{HaveCases};
ghost use Rattle.ags_certtype.specs.Cert.{certificate_of};
ghost use Rattle.ags_certtype.specs.Edit.{IsNoRow};
ghost use Rattle.ags_certtype.specs.declared.edit_errors.EditError.{EditError};
ghost use Rattle.ags_edits.specs.declared.edits.Edit.TheVariants as edit;
ghost use Rattle.ags_recheck.specs.Edited.{IsEdited, IsOfMemory};
ghost use Rattle.ags_recheck.specs.Bound.{IsMost};
ghost use Rattle.ags_recheck.specs.Kept.{IsBook};

use crate::items::{Item, room_for, told};
use crate::rejudging::{judge_all, rejudge};
use ags_certtype::{Cert, EditError};
use ags_check::laws::rows_have_one_number_of_cases;
use ags_check::{EachServes, Refusal, Verdict, first_outside, start_row};
use ags_domain::Value;
use ags_edits::Edit;
use ags_image::Image;
use ags_ports::Machine;
use ags_ports::laws::machine_is_made_of_tables;
use ags_row::{At, Row};
use ags_steps::Steps;
use ags_word::Word;
use std::alloc::{AllocError, Global};
use std::marker::Model;
use std::sync::ledger::Ledger;

/// A machine, an image and a certificate that are edited, with what comes of each row and where its posts go (docs/EDITS.md). It takes
/// memory when it is made and none later.
#[derive(Drop)]
pub struct Book {
    machine: Machine,
    image: Image,
    cert: Cert,
    items: Vec<Item>,
}

impl Model for Book {
    ghost use Rattle.ags_check.specs.Judging.{Judging};
    ghost use Rattle.ags_recheck.specs.Kept.{IsBook};

    ghost Value = { Judging };

    ghost view = { λ book. record { machine = book.machine; image = book.image; cert = book.cert } };

    ghost invariant = { λ book. IsBook book.machine book.image book.cert book.items.items };
}

/// How many cases the rows have, or what fails first in them, by what is kept of each.
fn rows_kept(machine: &Machine, image: &Image, cert: &Cert, items: &[Item]) -> Result<u64, Refusal>
    requires { IsBook machine.now image.now cert.now items.now }
    ensures { InOrder (IsRowJudgedAt value_meaning (certificate_of cert.now) machine.now image.now) 1 cert.now.rows result }
{
    let _few = cert.rows();
    let mut count: u64 = 0;
    let mut number: u32 = 0;
    for item in items {
        number += 1;
        match told(number, item) {
            Ok(more) => count += more,
            Err(refusal) => return Err(refusal),
        }
    }
    Ok(count)
}

/// How many rows a certificate has.
fn number_of_rows(cert: &Cert) -> u32
    ensures number { result ≡ length cert.now.rows }
    ensures few { result ≤ 20000 }
{
    cert.rows().len() as u32
}

/// The first word of the erasable cell at an address, where nothing is stated of the start: the image's word, or 0.
fn first_word(image: &Image, address: u16) -> Word
    requires { address < 2048 }
    ensures { result ≡ unwrap_or (entry_at image.now address) 0 }
{
    image.get(address).unwrap_or(Word::ZERO)
}

/// The verdict, by what is kept of each row.
fn verdict_kept(machine: &Machine, image: &Image, cert: &Cert, items: &[Item]) -> Verdict
    requires { IsBook machine.now image.now cert.now items.now }
    ensures { IsVerdict value_meaning machine.now image.now (certificate_of cert.now) result }
{
    if let Some(address) = first_outside(image, cert) {
        let word = first_word(image, address);
        return Verdict::Refused(Refusal::InitRange { address, word });
    }
    if start_row(image, cert, &EachServes).is_none() {
        return Verdict::Refused(Refusal::StartUncovered);
    }
    match rows_kept(machine, image, cert, items) {
        Ok(cases) => Verdict::Certified {
            rows: number_of_rows(cert),
            cases,
        },
        Err(refusal) => Verdict::Refused(refusal),
    }
}

/// The location of the row of a number, from 1, and 0 where there is no such row.
fn location_of(cert: &Cert, number: u32) -> u16
    ensures below { result < 4096 }
    ensures location { (d : Row Value) → ¬ IsNoRow cert.now number → result ≡ (slice_index_or cert.now.rows (number - 1) d).location }
{
    let rows = cert.rows();
    if number == 0 || rows.len() < number as usize {
        return 0;
    }
    rows[number as usize - 1].location()
}

impl Book {
    /// Judges each case of a program's certificate once. The one error is want of memory; the machine, the image and the certificate
    /// are then dropped.
    pub fn new<L: Ledger>(
        alloc: Global,
        machine: Machine,
        image: Image,
        cert: Cert,
        steps: &mut Steps<L>,
    ) -> Result<Book, AllocError>
        ensures book { IfOk result (λ book. book ≡ record { machine = machine; image = image; cert = cert }) }
        ensures steps { (cases : ℕ) → HaveCases value_meaning image cert.limits cert.rows cases → steps.new ≤ steps.old + cases }
    {
        let mut items = room_for(alloc, cert.rows().len())?;
        judge_all(&machine, &image, &cert, items.as_mut_slice(), steps);
        Ok(Book {
            machine,
            image,
            cert,
            items,
        })
    }

    /// The image, as it is edited.
    pub fn image(&self) -> &Image
        ensures { result.now ≡ self.now.image }
    {
        &self.image
    }

    /// The certificate, as it is edited.
    pub fn cert(&self) -> &Cert
        ensures { result.now ≡ self.now.cert }
    {
        &self.cert
    }

    /// The verdict of the edited certificate for the edited image: the one that a check from nothing tells. It takes no memory and no
    /// step.
    pub fn verdict(&self) -> Verdict
        ensures verdict { IsVerdict value_meaning self.now.machine self.now.image (certificate_of self.now.cert) result }
        ensures alone { (other : Verdict Value) → IsVerdict value_meaning self.now.machine self.now.image (certificate_of self.now.cert) other
            → other ≡ result }
    {
        machine_is_made_of_tables(&self.machine);
        verdict_kept(
            &self.machine,
            &self.image,
            &self.cert,
            self.items.as_slice(),
        )
    }

    /// Another row in the place of one.
    fn replace_row<L: Ledger>(
        &mut self,
        number: u32,
        row: Row<Value>,
        steps: &mut Steps<L>,
    ) -> Result<(), EditError>
        ensures edited { IsEdited self.old (edit.Row number row) result self.new }
        ensures steps { (most : ℕ) → IsMost self.old (edit.Row number row) result self.new most → steps.new ≤ steps.old + most }
        ensures bounded { (most : ℕ) × IsMost self.old (edit.Row number row) result self.new most }
    {
        let _word = self.image.get(0);
        let one = location_of(&self.cert, number);
        let other = row.location();
        self.cert.replace_row(number, row)?;
        rejudge(
            &self.machine,
            &self.image,
            &self.cert,
            self.items.as_mut_slice(),
            number as usize - 1,
            one,
            other,
            steps,
        );
        Ok(())
    }

    /// Another limit of a cell. Every row is judged again.
    fn replace_limit<L: Ledger>(
        &mut self,
        cell: At<Value>,
        steps: &mut Steps<L>,
    ) -> Result<(), EditError>
        requires { cell.address < 2048 }
        ensures edited { IsEdited self.old (edit.Limit cell) result self.new }
        ensures steps { (most : ℕ) → IsMost self.old (edit.Limit cell) result self.new most → steps.new ≤ steps.old + most }
        ensures bounded { (most : ℕ) × IsMost self.old (edit.Limit cell) result self.new most }
    {
        rows_have_one_number_of_cases();
        let _word = self.image.get(0);
        self.cert.replace_limit(&cell)?;
        judge_all(
            &self.machine,
            &self.image,
            &self.cert,
            self.items.as_mut_slice(),
            steps,
        );
        Ok(())
    }

    /// Another word at a location. Every row is judged again.
    fn replace_word<L: Ledger>(&mut self, location: u16, word: Word, steps: &mut Steps<L>)
        requires { location < 4096 }
        ensures edited { self.new ≡ record self.old { image = with_word self.old.image location word } }
        ensures steps { (cases : ℕ) → HaveCases value_meaning self.new.image self.new.cert.limits self.new.cert.rows cases
            → steps.new ≤ steps.old + cases }
        ensures bounded { (cases : ℕ) × HaveCases value_meaning self.new.image self.new.cert.limits self.new.cert.rows cases }
    {
        rows_have_one_number_of_cases();
        self.image.set(location, word);
        judge_all(
            &self.machine,
            &self.image,
            &self.cert,
            self.items.as_mut_slice(),
            steps,
        );
    }

    /// Makes an edit, or tells why it is refused, and then nothing changed (docs/EDITS.md). It takes no memory. Where another row
    /// stands it takes at most as many steps as the new row has cases, and as those rows have that had a post at the old or the new
    /// location; where another word or another limit stands, as many as the edited certificate has cases.
    pub fn apply<L: Ledger>(&mut self, edit: Edit, steps: &mut Steps<L>) -> Result<(), EditError>
        requires { IsOfMemory edit }
        ensures edited { IsEdited self.old edit result self.new }
        ensures unchanged { (error : EditError) → result ≡ Err error → self.new ≡ self.old }
        ensures steps { (most : ℕ) → IsMost self.old edit result self.new most → steps.new ≤ steps.old + most }
        ensures bounded { (most : ℕ) × IsMost self.old edit result self.new most }
    {
        match edit {
            Edit::Word { location, word } => {
                self.replace_word(location, word, steps);
                Ok(())
            }
            Edit::Limit(cell) => self.replace_limit(cell, steps),
            Edit::Row { row, new } => self.replace_row(row, new, steps),
        }
    }
}
