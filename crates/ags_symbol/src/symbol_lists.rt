//! The symbols of a source whose cards were all read: a list, in which none is looked up.

ghost use Rattle.std.specs.Prelude.{◌≡◌, ◌<◌, length, slice_get, All, IfOk, Some};
ghost use Rattle.ags_symbol.specs.Symbol.{EachNameOnce, IsValue};

use crate::symbols::{Defined, Symbols};
use ags_card::Name;
use std::alloc::{AllocError, Global};
use std::marker::Model;

/// The symbols of a source, each once, in the order of their definitions.
pub struct SymbolList {
    entries: Vec<(Name, Defined)>,
}

// Written, so that whoever lets one go calls this, and the checker follows no part of it there.
impl Drop for SymbolList {
    fn drop(self) {
        let SymbolList { entries: _ } = self;
    }
}

impl Model for SymbolList {
    ghost use Rattle.std.specs.Prelude.{List, map};
    ghost use Rattle.ags_symbol.specs.Symbol.{Entry};
    ghost use Rattle.ags_symbol.specs.View.{entry_of, AreListed};

    ghost Value = { List Entry };

    ghost view = { λ s. map entry_of s.entries.items };

    ghost invariant = { λ s. AreListed (map entry_of s.entries.items) };
}

impl Symbols {
    /// The list of these symbols. The one error is want of memory.
    pub fn into_list(self, alloc: Global) -> Result<SymbolList, AllocError>
        ensures { IfOk result (λ list. list ≡ self) }
    {
        let mut entries = Vec::new(alloc);
        for position in 0..self.len() {
            entries.push(self.nth(position))?;
        }
        Ok(SymbolList { entries })
    }
}

impl SymbolList {
    /// How many there are.
    pub fn len(&self) -> usize
        ensures many { result ≡ length self.now }
        ensures once { EachNameOnce self.now }
        ensures values { All (λ entry. IsValue entry.value) self.now }
    {
        self.entries.len()
    }

    /// The symbol at a position, and what it stands for.
    pub fn nth(&self, position: usize) -> (Name, Defined)
        requires { position < length self.now }
        ensures { slice_get self.now position ≡ Some (record { name = result.0; value = result.1.value; card = result.1.card }) }
    {
        self.entries[position]
    }
}
