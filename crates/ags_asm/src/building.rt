//! A source that comes in pieces.

ghost use Rattle.std.specs.Prelude.{◌≡◌, ◌≤◌, ◌⊎◌, ◌++◌, [], length, All, IfOk, IfErr, IsOkAnd, IsErrOf, OnOk};
ghost use Rattle.std.proofs.Common.{refl, ◌∙◌};
ghost use Rattle.ags_image.specs.Image.{IsImageOf};
ghost use Rattle.ags_outside.specs.Taken.{TookMore};
ghost use Rattle.ags_places.specs.declared.source_error.SourceError.{SourceError};
ghost use Rattle.ags_places.specs.Deck.{card_lines};
ghost use Rattle.ags_places.specs.Limit.{source_limit};
ghost use Rattle.ags_asm.specs.Pieces.{took_source};
ghost use Rattle.ags_asm.specs.Source.{AreSpans, CardWords, Defines, IsAssembled, IsFaulty, IsInMemory, IsRefused, card_words, placed_cards, placed_words};

use crate::assembling::{Assembled, assemble};
use ags_isa::Codes;
use ags_outside::Taker;
use ags_places::{AssembleError, SOURCE_LIMIT};
use std::alloc::{AllocError, Global};
use std::marker::Model;

/// A source while its pieces come. It keeps their bytes, which the cards of an assembled source are spans of, and reads them at
/// the end.
#[derive(Drop)]
pub struct Building {
    alloc: Global,
    codes: Codes,
    bytes: Vec<u8>,
}

impl Model for Building {
    ghost use Rattle.ags_asm.specs.Pieces.{KeptSource};

    ghost Value = { KeptSource };

    ghost view = { λ building. record { codes = building.codes; bytes = building.bytes.items } };
}

impl Building {
    /// A source to be assembled by a table of codes, of which no byte came yet.
    pub fn new(alloc: Global, codes: &Codes) -> Building
        ensures took { took_source result [] }
        ensures codes { result.codes ≡ codes.now }
    {
        Building {
            alloc,
            codes: *codes,
            bytes: Vec::new(alloc),
        }
    }

    /// What `assemble` answers for the bytes that came, with these bytes where they are a source without a fault.
    pub fn finish(self) -> Result<(Vec<u8>, Assembled), AssembleError>
        requires { length self.bytes ≤ source_limit }
        ensures bytes { IfOk result (λ source. source.0.items ≡ self.bytes) }
        ensures assembled { IfOk result (λ source. IsAssembled self.codes self.bytes source.1.cards.items source.1.symbols source.1.image) }
        ensures defines { IfOk result (λ source. Defines self.codes self.bytes (card_words source.1)) }
        ensures image { IfOk result (λ source. IsImageOf (placed_words (card_words source.1)) source.1.image) }
        ensures refused { IfErr result (IsRefused self.bytes) }
        ensures faultless { (words : CardWords) → Defines self.codes self.bytes words
            → IsOkAnd result (λ source. source.1.cards.items ≡ placed_cards (card_lines self.bytes) words) ⊎ IsErrOf result AssembleError.NoMemory }
        ensures faulty { (error : SourceError) → IsFaulty self.bytes error
            → IsErrOf result (AssembleError.Source error) ⊎ IsErrOf result AssembleError.NoMemory }
        ensures one_each { IfOk result (λ source. length source.1.cards.items ≡ length (card_lines self.bytes)) }
        ensures within { IfOk result (λ source. All IsInMemory source.1.cards.items) }
        ensures spans { IfOk result (λ source. AreSpans 0 (length self.bytes) source.1.cards.items) }
    {
        let Building {
            alloc,
            codes,
            bytes,
        } = self;
        let made = assemble(alloc, &bytes, &codes)?;
        Ok((bytes, made))
    }
}

impl Taker for Building {
    ghost took = { took_source };

    ghost stays = { λ old new. new.codes ≡ old.codes };

    ghost stays_at_once = { λ building. refl };

    ghost stays_on = { λ old mid new one two. two ∙ one };

    fn take(&mut self, piece: &[u8]) -> Result<(), AllocError>
        ensures took { OnOk result (TookMore took_source self.old self.new piece.now) }
        ensures bytes { OnOk result (self.new.bytes ≡ self.old.bytes ++ piece.now) }
        ensures codes { self.new.codes ≡ self.old.codes }
    {
        self.bytes.extend_from_slice(piece)
    }
}
