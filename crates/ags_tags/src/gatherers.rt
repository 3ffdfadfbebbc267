//! What is gathered of the lines of a text of scales.

ghost use Rattle.std.specs.Prelude.{◌≡◌, None, IfOk, replicate};

use crate::lines::read_scale_line;
use crate::registers::may_stand;
use crate::scale_errors::ScaleKind;
use crate::statements::{Entry, RowEntry, ScaleLine, Table};
use crate::tables::TagTable;
use crate::tags::{RowTags, Tag};
use ags_frame::Statements;
use ags_ports::Ports;
use ags_statements::{Gathers, Untaken};
use std::alloc::{AllocError, Global};

/// The tags so far.
#[derive(Drop)]
pub(crate) struct Gatherer {
    /// The machine's registers.
    ports: Ports,
    /// The tags of the cells.
    pub(crate) cells: TagTable,
    /// The tags of the input registers.
    pub(crate) inputs: TagTable,
    /// The tags of the output registers.
    pub(crate) outputs: TagTable,
    /// The tags of each row, the first row's first, where a line stated them.
    pub(crate) rows: Vec<Option<RowTags>>,
    /// Whether END was the last line.
    ended: bool,
}

/// So many rows of which nothing is stated.
fn no_tags(alloc: Global, rows: u32) -> Result<Vec<Option<RowTags>>, AllocError>
    ensures { IfOk result (λ table. table.items ≡ replicate rows None) }
{
    vec![in alloc; None; rows as usize]
}

impl Gatherer {
    ghost use Rattle.std.specs.Prelude.{◌≡◌, ◌==◌, ◌||◌, ◌<◌, ℕ, nat_lt, [], IfOk, IfErr, length, true, false};
    ghost use Rattle.ags_statements.specs.Taking.{TakesStatement, TellsUntaken};
    ghost use Rattle.ags_tags.specs.Gathering.{gathered_of, is_noted, is_tagged, with_entry};
    ghost use Rattle.ags_tags.specs.Text.{faults};
    ghost use Rattle.ags_tags.specs.declared.statements.ScaleLine.TheVariants.{Scaled, Tagged};

    /// Nothing is gathered for the registers and so many rows.
    pub(crate) fn new(alloc: Global, ports: &Ports, rows: u32) -> Result<Gatherer, AllocError>
        ensures nothing { IfOk result (λ g. gathered_of g []) }
        ensures ports { IfOk result (λ g. g.ports ≡ ports.now) }
        ensures rows { IfOk result (λ g. length g.rows.items ≡ rows) }
    {
        Ok(Gatherer {
            cells: TagTable::new(alloc)?,
            inputs: TagTable::new(alloc)?,
            outputs: TagTable::new(alloc)?,
            rows: no_tags(alloc, rows)?,
            ports: ports.copy(),
            ended: false,
        })
    }

    /// Whether a line stated a scale at an address of a table.
    fn is_tagged(&self, table: Table, address: u16) -> bool
        ensures { result ≡ is_tagged self.now table address }
    {
        let tag = match table {
            Table::Cell => self.cells.tag(address),
            Table::In => self.inputs.tag(address),
            Table::Out => self.outputs.tag(address),
        };
        tag != Tag::Raw
    }

    /// Sets the scale at an address of a table.
    fn put(&mut self, table: Table, its: Entry)
        requires { its.address < 4096 }
        ensures { self.new ≡ with_entry self.old table its }
    {
        match table {
            Table::Cell => self.cells.put(its),
            Table::In => self.inputs.put(its),
            Table::Out => self.outputs.put(its),
        }
    }

    /// Takes the scale of a cell or a register, where END doesn't stand before it.
    fn take_entry(&mut self, table: Table, its: Entry) -> Result<(), Untaken<ScaleKind>>
        requires { self.old.ended ≡ false }
        ensures taken { (version : ℕ) → IfOk result
            (λ _. TakesStatement gathered_of (faults self.old.ports (length self.old.rows.items)) version self.old (Scaled table its) self.new) }
        ensures untaken { (version : ℕ) → IfErr result
            (TellsUntaken gathered_of (faults self.old.ports (length self.old.rows.items)) version self.old (Scaled table its)) }
        ensures ports { self.new.ports ≡ self.old.ports }
        ensures rows { length self.new.rows.items ≡ length self.old.rows.items }
    {
        if !may_stand(&self.ports, table, its.address) {
            return Err(Untaken::Faulty(ScaleKind::BadLine));
        }
        if self.is_tagged(table, its.address) {
            return Err(Untaken::Faulty(ScaleKind::Twice));
        }
        self.put(table, its);
        Ok(())
    }

    /// Whether there is no row of a number.
    fn has_no_row(&self, number: u32) -> bool
        ensures { result ≡ (number == 0 || nat_lt (length self.now.rows.items) number) }
    {
        number == 0 || self.rows.len() < number as usize
    }

    /// Whether a line stated the tags of a row.
    fn is_noted(&self, number: u32) -> bool
        ensures { result ≡ is_noted self.now.rows.items number }
    {
        if self.has_no_row(number) {
            return false;
        }
        self.rows[number as usize - 1].is_some()
    }

    /// Takes the tags of a row, where END doesn't stand before them.
    fn take_row(&mut self, its: RowEntry) -> Result<(), Untaken<ScaleKind>>
        requires { self.old.ended ≡ false }
        ensures taken { (version : ℕ) → IfOk result
            (λ _. TakesStatement gathered_of (faults self.old.ports (length self.old.rows.items)) version self.old (Tagged its) self.new) }
        ensures untaken { (version : ℕ) → IfErr result
            (TellsUntaken gathered_of (faults self.old.ports (length self.old.rows.items)) version self.old (Tagged its)) }
        ensures ports { self.new.ports ≡ self.old.ports }
        ensures rows { length self.new.rows.items ≡ length self.old.rows.items }
    {
        if self.is_noted(its.row) {
            return Err(Untaken::Faulty(ScaleKind::Twice));
        }
        if self.has_no_row(its.row) {
            return Err(Untaken::Faulty(ScaleKind::NoRow));
        }
        self.rows[its.row as usize - 1] = Some(its.tags);
        Ok(())
    }
}

impl Statements for Gatherer {
    ghost use Rattle.ags_tags.specs.Spelling.{States};

    type Statement = ScaleLine;

    ghost states = { States };

    fn read_statement(line: &[u8]) -> Option<ScaleLine> {
        read_scale_line(line)
    }

    fn lines_state_one_thing_at_most() {}
}

impl Gathers for Gatherer {
    ghost use Rattle.std.specs.Prelude.{◌≡◌, ℕ, length};
    ghost use Rattle.ags_ports.specs.Port.{Registers};
    ghost use Rattle.std.proofs.Common.{refl, ap, ◌∙◌};
    ghost use Rattle.ags_tags.specs.Gathering.{gathered_of};
    ghost use Rattle.ags_tags.specs.Text.{faults};

    type Fault = ScaleKind;

    ghost faults = { λ g. faults g.ports (length g.rows.items) };

    ghost stays = { λ old new. (new.ports ≡ old.ports) × (length new.rows.items ≡ length old.rows.items) };

    ghost gathered = { gathered_of };

    fn take(&mut self, version: u32, line: ScaleLine) -> Result<(), Untaken<ScaleKind>> {
        if self.ended {
            return Err(Untaken::Faulty(ScaleKind::BadLine));
        }
        match line {
            ScaleLine::Scaled(table, its) => self.take_entry(table, its),
            ScaleLine::Tagged(its) => self.take_row(its),
            ScaleLine::End => {
                self.ended = true;
                Ok(())
            }
        }
    }

    fn has_ended(&self) -> bool {
        self.ended
    }

    fn bad_line(&self) -> ScaleKind {
        ScaleKind::BadLine
    }

    fn version(&self) -> ScaleKind {
        ScaleKind::Version
    }

    ghost stays_at_once = { λ g. (refl, refl) };

    ghost stays_on = { λ old mid new one two. (two.0 ∙ one.0, two.1 ∙ one.1) };

    ghost faults_stay = { λ old new same.
        ap (λ (p : Registers). faults p (length new.rows.items)) same.0 ∙ ap (λ (n : ℕ). faults old.ports n) same.1 };
}
