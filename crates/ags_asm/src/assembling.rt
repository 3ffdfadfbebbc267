//! The assembler: a source's cards, each read once, and what came of them at its end.

ghost use Rattle.std.specs.Prelude.{◌≡◌, ◌≤◌, ◌⊎◌, length, All, IfOk, IfErr, IsOkAnd, IsErrOf};
ghost use Rattle.ags_image.specs.Image.{IsImageOf};
ghost use Rattle.ags_places.specs.declared.source_error.SourceError.{SourceError};
ghost use Rattle.ags_places.specs.Deck.{card_lines};
ghost use Rattle.ags_places.specs.Limit.{source_limit};
ghost use Rattle.ags_asm.specs.Pass.{IsClosed, IsPassed};
ghost use Rattle.ags_asm.specs.Source.{AreSpans, CardWords, Defines, IsAssembled, IsFaulty, IsInMemory, IsRefused, card_words, placed_cards, placed_words};

use crate::passing::{Pass, read_cards};
use ags_image::Image;
use ags_isa::Codes;
use ags_places::{AssembleError, Placed, SOURCE_LIMIT, SourceError, SourceKind};
use ags_symbol::SymbolList;
use std::alloc::Global;

/// An assembled source.
#[derive(Drop)]
pub struct Assembled {
    /// The words in the memory.
    pub image: Image,
    /// The cards in order, comments too, up to and with the first END.
    pub cards: Vec<Placed>,
    /// The symbols in the order of their definitions.
    pub symbols: SymbolList,
}

/// What a source whose cards were read comes to: the image of its words, its cards and its symbols.
fn close_pass(
    alloc: Global,
    codes: &Codes,
    bytes: &[u8],
    pass: Pass,
) -> Result<Assembled, AssembleError>
    requires { IsPassed codes.now bytes.now pass }
    ensures closed { IfOk result (λ made. IsClosed codes.now bytes.now made.cards.items made.symbols made.image) }
    ensures refused { IfErr result (IsRefused bytes.now) }
{
    let Pass {
        cards,
        symbols,
        mut words,
        misplaced,
        ..
    } = pass;
    if let Some((card, fault)) = misplaced {
        let kind = SourceKind::Place(fault);
        return Err(AssembleError::Source(SourceError { card, kind }));
    }
    if let Some((card, fault)) = words.close(codes, &symbols) {
        let kind = SourceKind::Word(fault);
        return Err(AssembleError::Source(SourceError { card, kind }));
    }
    let symbols = symbols.into_list(alloc)?;
    Ok(Assembled {
        image: words.image,
        cards,
        symbols,
    })
}

/// Reads a source, each card once, and closes it.
fn assemble_once(alloc: Global, bytes: &[u8], codes: &Codes) -> Result<Assembled, AssembleError>
    requires { length bytes.now ≤ source_limit }
    ensures assembled { IfOk result (λ made. IsAssembled codes.now bytes.now made.cards.items made.symbols made.image) }
    ensures refused { IfErr result (IsRefused bytes.now) }
    ensures within { IfOk result (λ made. All IsInMemory made.cards.items) }
{
    let mut pass = Pass::new(alloc)?;
    read_cards(codes, bytes, &mut pass)?;
    close_pass(alloc, codes, bytes, pass)
}

/// Assembles a source of at most 4,194,304 bytes by a table of codes: the image of its words, each card with the span of its
/// bytes, the place of its first word and how many it has (docs/SOURCE.md, Places), and its symbols, or the source's first fault (docs/SOURCE.md, Faults).
/// A fault of the phase of cards comes first, then one of places, then one of words, and in a phase the first card's.
/// `NoMemory` may come at any source, and says nothing of it.
pub fn assemble(alloc: Global, bytes: &[u8], codes: &Codes) -> Result<Assembled, AssembleError>
    requires { length bytes.now ≤ source_limit }
    // It is a source without a fault, and these are its cards, whose places and words are those that it defines, the one list of
    // pairs that fits them, and the image of the words; or its first fault is this one.
    ensures assembled { IfOk result (λ made. IsAssembled codes.now bytes.now made.cards.items made.symbols made.image) }
    ensures defines { IfOk result (λ made. Defines codes.now bytes.now (card_words made)) }
    ensures image { IfOk result (λ made. IsImageOf (placed_words (card_words made)) made.image) }
    ensures refused { IfErr result (IsRefused bytes.now) }

    // A source without a fault is assembled, and one with a fault is refused for it, unless memory runs out.
    ensures faultless { (words : CardWords) → Defines codes.now bytes.now words
        → IsOkAnd result (λ made. made.cards.items ≡ placed_cards (card_lines bytes.now) words) ⊎ IsErrOf result AssembleError.NoMemory }
    ensures faulty { (error : SourceError) → IsFaulty bytes.now error
        → IsErrOf result (AssembleError.Source error) ⊎ IsErrOf result AssembleError.NoMemory }

    // There is a card for each line up to and with the first END.
    ensures one_each { IfOk result (λ made. length made.cards.items ≡ length (card_lines bytes.now)) }

    // Each place is one of the memory's. The cards' spans follow each other in the source.
    ensures within { IfOk result (λ made. All IsInMemory made.cards.items) }
    ensures spans { IfOk result (λ made. AreSpans 0 (length bytes.now) made.cards.items) }
{
    assemble_once(alloc, bytes, codes)
}
