//! The symbols of a source, in the order of their definitions.

ghost use Rattle.std.specs.Prelude.{◌≡◌, ◌<◌, ◌++◌, [], ◌∷◌, length, slice_get, option_map, OnOk, OnErr, IfSome, IfErr, All, Some, None, Err};
ghost use Rattle.ags_symbol.specs.Symbol.{Entry, IsValue, EachNameOnce, found};
ghost use Rattle.ags_symbol.specs.Refusal.{IsTwice};
ghost use Rattle.ags_symbol.specs.View.{entry_of};

use ags_card::Name;
use indexmap::IndexMap;
use std::alloc::Global;
use std::marker::Model;
use thiserror::Error;

/// What a symbol stands for.
#[derive(Clone, Copy)]
pub struct Defined {
    /// Its value (docs/SOURCE.md, Places).
    pub value: i32,
    /// The number of the card that defines it, counted from 1.
    pub card: u32,
}

/// Why a symbol isn't defined.
#[derive(Clone, Copy, Debug, Error)]
pub enum DefineError {
    /// An earlier card, `first`, defines it.
    #[error("the symbol is defined already")]
    Twice {
        /// That card's number.
        first: u32,
    },
    /// There was too little memory.
    #[error("out of memory")]
    NoMemory,
}

/// The symbols that are defined, each once, in the order of their definitions.
pub struct Symbols {
    by_name: IndexMap<Name, Defined>,
}

// Written, so that whoever lets one go calls this, and the checker follows no part of it there.
impl Drop for Symbols {
    fn drop(self) {
        let Symbols { by_name: _ } = self;
    }
}

impl Model for Symbols {
    ghost use Rattle.std.specs.Prelude.{List, map, All};
    ghost use Rattle.ags_symbol.specs.Symbol.{Entry, IsValue};
    ghost use Rattle.ags_symbol.specs.View.{entry_of, AreSymbols};

    ghost Value = { List Entry };

    ghost view = { λ s. map entry_of s.by_name.entries };

    ghost invariant = { λ s. AreSymbols s.by_name };
}

impl Symbols {
    /// No symbols.
    pub fn new(alloc: Global) -> Symbols
        ensures { result ≡ [] }
    {
        Symbols {
            by_name: IndexMap::new(alloc),
        }
    }

    /// How many there are.
    pub fn len(&self) -> usize
        ensures many { result ≡ length self.now }
        ensures once { EachNameOnce self.now }
        ensures values { All (λ entry. IsValue entry.value) self.now }
    {
        self.by_name.len()
    }

    /// The symbol at a position, and what it stands for.
    pub fn nth(&self, position: usize) -> (Name, Defined)
        requires { position < length self.now }
        ensures { slice_get self.now position ≡ Some (record { name = result.0; value = result.1.value; card = result.1.card }) }
    {
        let (name, defined) = self.by_name.get_index(position).unwrap();
        (*name, *defined)
    }

    /// What a symbol stands for, and nothing where it isn't defined.
    pub fn get(&self, name: &Name) -> Option<Defined>
        ensures found { option_map (λ d. entry_of (name.now, d)) result ≡ found name.now self.now }
        ensures value { IfSome result (λ d. IsValue d.value) }
    {
        self.by_name.get(name).copied()
    }

    /// Puts a symbol after the others, where it isn't among them.
    fn push(&mut self, name: Name, defined: Defined) -> Result<(), DefineError>
        requires new { found name self.old ≡ None }
        requires value { IsValue defined.value }
        ensures defined { OnOk result (self.new ≡ self.old ++ entry_of (name, defined) ∷ []) }
        ensures refused { IfErr result (λ error. error ≡ DefineError.NoMemory) }
        ensures unchanged { OnErr result (self.new ≡ self.old) }
    {
        let Ok(_) = self.by_name.insert(name, defined) else {
            return Err(DefineError::NoMemory);
        };
        Ok(())
    }

    /// Defines a symbol. It is refused where it is defined already, and after a refusal nothing has changed.
    pub fn define(&mut self, name: Name, value: i32, card: u32) -> Result<(), DefineError>
        requires { IsValue value }
        ensures defined { OnOk result (self.new ≡ self.old ++ record { name = name; value = value; card = card } ∷ []) }
        ensures once { OnOk result (found name self.old ≡ None) }
        ensures twice { IfErr result (IsTwice (found name self.old)) }
        ensures refused { (entry : Entry) → found name self.old ≡ Some entry → result ≡ Err (DefineError.Twice entry.card) }
        ensures unchanged { OnErr result (self.new ≡ self.old) }
    {
        if let Some(earlier) = self.get(&name) {
            return Err(DefineError::Twice {
                first: earlier.card,
            });
        }
        self.push(name, Defined { value, card })
    }
}
