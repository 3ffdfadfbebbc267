//! What is gathered of the lines of a text of edits.

use crate::edits::Edit;
use crate::edits_errors::EditsKind;
use crate::lines::read_edit_line;
use crate::reading::MOST_EDITS;
use crate::rows::{at_fault, bare_row, is_fixed, with_cell, with_link};
use crate::statements::{EditLine, RowEdit, WordEdit};
use ags_certtext::Entry;
use ags_domain::Value;
use ags_frame::Statements;
use ags_row::{At, Link, Row};
use ags_statements::{Gathers, Untaken};
use std::alloc::Global;

/// The edits so far.
#[derive(Drop)]
pub(crate) struct Gatherer {
    alloc: Global,
    /// The edits, in order; the last one's row grows with the lines after it.
    pub(crate) edits: Vec<Edit>,
    /// Whether END was the last line.
    ended: bool,
}

impl Gatherer {
    ghost use Rattle.std.specs.Prelude.{◌≡◌, ◌<◌, ◌++◌, ℕ, nat_le, [], ◌∷◌, IfOk, IfErr, length, true, false};
    ghost use Rattle.ags_certtext.specs.Statement.{IsRowLine};
    ghost use Rattle.ags_certtext.specs.Spelling.{is_offset};
    ghost use Rattle.ags_statements.specs.Taking.{TakesStatement, TellsUntaken};
    ghost use Rattle.ags_statements.specs.declared.gathers.Untaken.TheVariants.{NoMemory};
    ghost use Rattle.ags_edits.specs.Gathering.{IsLast, gathered_of};
    ghost use Rattle.ags_edits.specs.Text.{IsWordOfMemory, faults};
    ghost use Rattle.ags_edits.specs.declared.statements.EditLine.TheVariants as line;

    /// Nothing is gathered.
    pub(crate) fn new(alloc: Global) -> Gatherer
        ensures { gathered_of result [] }
    {
        Gatherer {
            alloc,
            edits: Vec::new(alloc),
            ended: false,
        }
    }

    /// Whether there is no room for a further edit.
    fn is_full(&self) -> bool
        ensures { result ≡ nat_le 10000 (length self.now.edits.items) }
    {
        self.edits.len() >= MOST_EDITS
    }

    /// Adds an edit. The one error is want of memory.
    fn add(&mut self, edit: Edit) -> Result<(), Untaken<EditsKind>>
        ensures added { IfOk result (λ _. self.new.edits.items ≡ self.old.edits.items ++ edit ∷ []) }
        ensures untaken { IfErr result (λ why. why ≡ NoMemory) }
        ensures ended { self.new.ended ≡ self.old.ended }
    {
        self.edits.push(edit).map_err(|_| Untaken::NoMemory)
    }

    /// Takes the edit of a word, where END doesn't stand before it.
    fn take_word(&mut self, its: WordEdit) -> Result<(), Untaken<EditsKind>>
        requires unended { self.old.ended ≡ false }
        requires word { IsWordOfMemory its.location its.word }
        ensures taken { (version : ℕ) → IfOk result (λ _. TakesStatement gathered_of faults version self.old (line.Word its) self.new) }
        ensures untaken { (version : ℕ) → IfErr result (TellsUntaken gathered_of faults version self.old (line.Word its)) }
    {
        if self.is_full() {
            return Err(Untaken::Faulty(EditsKind::TooManyEdits));
        }
        self.add(Edit::Word {
            location: its.location,
            word: its.word,
        })
    }

    /// Takes the edit of a cell's limit, where END doesn't stand before it.
    fn take_cell(&mut self, its: Entry) -> Result<(), Untaken<EditsKind>>
        requires unended { self.old.ended ≡ false }
        ensures taken { (version : ℕ) → IfOk result (λ _. TakesStatement gathered_of faults version self.old (line.Cell its) self.new) }
        ensures untaken { (version : ℕ) → IfErr result (TellsUntaken gathered_of faults version self.old (line.Cell its)) }
    {
        if is_fixed(its.address) {
            return Err(Untaken::Faulty(EditsKind::BadLine));
        }
        let stated = its.value;
        let Some(value) = stated else {
            return Err(Untaken::Faulty(EditsKind::EmptyRange));
        };
        if self.is_full() {
            return Err(Untaken::Faulty(EditsKind::TooManyEdits));
        }
        self.add(Edit::Limit(At {
            address: its.address,
            value,
        }))
    }

    /// Takes the edit of a row, where END doesn't stand before it.
    fn take_row(&mut self, its: RowEdit) -> Result<(), Untaken<EditsKind>>
        requires unended { self.old.ended ≡ false }
        requires row { IsRowLine its.new }
        ensures taken { (version : ℕ) → IfOk result (λ _. TakesStatement gathered_of faults version self.old (line.Row its) self.new) }
        ensures untaken { (version : ℕ) → IfErr result (TellsUntaken gathered_of faults version self.old (line.Row its)) }
    {
        let Some(new) = bare_row(self.alloc, its.new) else {
            return Err(Untaken::Faulty(EditsKind::EmptyRange));
        };
        if self.is_full() {
            return Err(Untaken::Faulty(EditsKind::TooManyEdits));
        }
        self.add(Edit::Row { row: its.row, new })
    }

    /// Takes the last edit away, if it is one of a row.
    fn take_last(&mut self) -> Option<(u32, Row<Value>)>
        ensures last { IsLast self.old.edits.items result self.new.edits.items }
        ensures ended { self.new.ended ≡ self.old.ended }
    {
        match self.edits.pop() {
            Some(Edit::Row { row, new }) => Some((row, new)),
            _ => None,
        }
    }

    /// Takes a cell of the last edit's row, where END doesn't stand before it.
    fn take_at(&mut self, its: Entry) -> Result<(), Untaken<EditsKind>>
        requires unended { self.old.ended ≡ false }
        ensures taken { (version : ℕ) → IfOk result (λ _. TakesStatement gathered_of faults version self.old (line.At its) self.new) }
        ensures untaken { (version : ℕ) → IfErr result (TellsUntaken gathered_of faults version self.old (line.At its)) }
    {
        if is_fixed(its.address) {
            return Err(Untaken::Faulty(EditsKind::BadLine));
        }
        let Some((row, old)) = self.take_last() else {
            return Err(Untaken::Faulty(EditsKind::BadLine));
        };
        if let Some(kind) = at_fault(&old, &its) {
            return Err(Untaken::Faulty(kind));
        }
        match with_cell(self.alloc, &old, &its) {
            Ok(new) => self.add(Edit::Row { row, new }),
            Err(_) => Err(Untaken::NoMemory),
        }
    }

    /// Takes the link of the last edit's row, where END doesn't stand before it.
    fn take_link(&mut self, its: Link) -> Result<(), Untaken<EditsKind>>
        requires unended { self.old.ended ≡ false }
        requires offset { is_offset its.offset ≡ true }
        ensures taken { (version : ℕ) → IfOk result (λ _. TakesStatement gathered_of faults version self.old (line.Linked its) self.new) }
        ensures untaken { (version : ℕ) → IfErr result (TellsUntaken gathered_of faults version self.old (line.Linked its)) }
    {
        if is_fixed(its.address) {
            return Err(Untaken::Faulty(EditsKind::BadLine));
        }
        let Some((row, old)) = self.take_last() else {
            return Err(Untaken::Faulty(EditsKind::BadLine));
        };
        if old.link().is_some() {
            return Err(Untaken::Faulty(EditsKind::Twice));
        }
        match with_link(self.alloc, &old, its) {
            Ok(new) => self.add(Edit::Row { row, new }),
            Err(_) => Err(Untaken::NoMemory),
        }
    }
}

impl Statements for Gatherer {
    ghost use Rattle.ags_edits.specs.Spelling.{States};

    type Statement = EditLine;

    ghost states = { States };

    fn read_statement(line: &[u8]) -> Option<EditLine> {
        read_edit_line(line)
    }

    fn lines_state_one_thing_at_most() {}
}

impl Gathers for Gatherer {
    ghost use Rattle.std.specs.Prelude.{◌≡◌};
    ghost use Rattle.std.proofs.Common.{refl, ◌∙◌};
    ghost use Rattle.ags_edits.specs.Gathering.{gathered_of};
    ghost use Rattle.ags_edits.specs.Text.{faults};

    type Fault = EditsKind;

    ghost faults = { λ g. faults };

    ghost stays = { λ old new. Unit {0} };

    ghost gathered = { gathered_of };

    fn take(&mut self, version: u32, line: EditLine) -> Result<(), Untaken<EditsKind>> {
        if self.ended {
            return Err(Untaken::Faulty(EditsKind::BadLine));
        }
        match line {
            EditLine::Word(its) => self.take_word(its),
            EditLine::Cell(its) => self.take_cell(its),
            EditLine::Row(its) => self.take_row(its),
            EditLine::At(its) => self.take_at(its),
            EditLine::Linked(its) => self.take_link(its),
            EditLine::End => {
                self.ended = true;
                Ok(())
            }
        }
    }

    fn has_ended(&self) -> bool {
        self.ended
    }

    fn bad_line(&self) -> EditsKind {
        EditsKind::BadLine
    }

    fn version(&self) -> EditsKind {
        EditsKind::Version
    }

    ghost stays_at_once = { λ g. tt };

    ghost stays_on = { λ old mid new one two. tt };

    ghost faults_stay = { λ old new same. refl };
}
