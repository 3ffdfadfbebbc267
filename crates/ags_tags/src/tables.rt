//! The tags that are declared.

ghost use Rattle.std.specs.Prelude.{◌≡◌, ◌<◌, IfOk, length, replicate, set};
ghost use Rattle.ags_tags.specs.Tag.{tag_at};
ghost use Rattle.ags_tags.specs.declared.tags.Tag.TheVariants.{Raw, Scale};

use crate::statements::Entry;
use crate::tags::{RowTag, RowTags, Tag};
use ags_word::LOCATIONS;
use std::alloc::{AllocError, Global};
use std::marker::Model;

/// The tags of a row of which nothing is stated.
const ANY_TAGS: RowTags = RowTags {
    a: RowTag::Any,
    q: RowTag::Any,
};

/// A tag for each of the 4096 addresses.
#[derive(Drop)]
pub(crate) struct TagTable {
    tags: Vec<Tag>,
}

impl Model for TagTable {
    ghost use Rattle.std.specs.Prelude.{◌≡◌, List, length};
    ghost use Rattle.ags_tags.specs.declared.tags.Tag.{Tag};

    ghost Value = { List Tag };

    ghost view = { λ table. table.tags.items };

    ghost invariant = { λ table. length table.tags.items ≡ 4096 };
}

impl TagTable {
    /// All addresses are raw.
    pub(crate) fn new(alloc: Global) -> Result<TagTable, AllocError>
        ensures { IfOk result (λ table. table ≡ replicate 4096 Raw) }
    {
        Ok(TagTable {
            tags: vec![in alloc; Tag::Raw; LOCATIONS as usize]?,
        })
    }

    /// The tag at an address; raw where there is no such address.
    pub(crate) fn tag(&self, address: u16) -> Tag
        ensures { result ≡ tag_at self.now address }
    {
        match self.tags.get(address as usize) {
            Some(tag) => *tag,
            None => Tag::Raw,
        }
    }

    /// Sets the tag at an address.
    pub(crate) fn put(&mut self, its: Entry)
        requires { its.address < 4096 }
        ensures { self.new ≡ set self.old its.address (Scale its.scale) }
    {
        self.tags[its.address as usize] = Tag::Scale(its.scale);
    }
}

/// The tags of the cells, the registers and the rows.
pub struct Scales {
    /// Of the cells.
    cells: TagTable,
    /// Of the input registers.
    inputs: TagTable,
    /// Of the output registers.
    outputs: TagTable,
    /// What is stated of each row, the first row's first.
    rows: Vec<Option<RowTags>>,
}

// Written, so that whoever lets one go calls this, and the checker follows no part of it there.
impl Drop for Scales {
    fn drop(self) {
        let Scales {
            cells: _,
            inputs: _,
            outputs: _,
            rows: _,
        } = self;
    }
}

impl Model for Scales {
    ghost use Rattle.ags_tags.specs.Tag.{Scaling, rows_where};

    ghost Value = { Scaling };

    ghost view = { λ scales. record {
      cells = scales.cells;
      inputs = scales.inputs;
      outputs = scales.outputs;
      rows = rows_where scales.rows.items;
    } };
}

impl Scales {
    ghost use Rattle.std.specs.Prelude.{◌≡◌};
    ghost use Rattle.ags_tags.specs.Tag.{cell_tag, input_tag, output_tag, rows_where, tags_of_row};

    /// The scales of these tags.
    pub(crate) fn of(
        cells: TagTable,
        inputs: TagTable,
        outputs: TagTable,
        rows: Vec<Option<RowTags>>,
    ) -> Scales
        ensures { result ≡ record { cells = cells; inputs = inputs; outputs = outputs; rows = rows_where rows.items } }
    {
        Scales {
            cells,
            inputs,
            outputs,
            rows,
        }
    }

    /// The tag of the cell at an address.
    pub fn cell(&self, address: u16) -> Tag
        ensures { result ≡ cell_tag self.now address }
    {
        self.cells.tag(address)
    }

    /// The tag of the input register at an address; raw where the machine has none there.
    pub fn input(&self, address: u16) -> Tag
        ensures { result ≡ input_tag self.now address }
    {
        self.inputs.tag(address)
    }

    /// The tag of the output register at an address; raw where the machine has none there.
    pub fn output(&self, address: u16) -> Tag
        ensures { result ≡ output_tag self.now address }
    {
        self.outputs.tag(address)
    }

    /// The tags of the row with a number, from 1, which are those of the first row for 0 too; any where there are fewer rows.
    pub fn row(&self, number: u32) -> RowTags
        ensures { result ≡ tags_of_row self.now number }
    {
        match self.rows.get((number as usize).saturating_sub(1)) {
            Some(tags) => tags.unwrap_or(ANY_TAGS),
            None => ANY_TAGS,
        }
    }
}
