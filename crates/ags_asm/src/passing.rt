//! One pass over a source's cards: each is read once, placed, and its words are made as far as the symbols are known
//! (docs/SOURCE.md, Faults). A line that is no card ends it. After a card that can't be placed lines are only read, since one
//! may be no card; and after a fault of the phase of words no word is made.

ghost use Rattle.std.specs.Prelude.{◌≡◌, ◌+◌, ◌≤◌, ◌<◌, ◌^◌, ℕ, List, length, OnOk, IfOk, IfErr};
ghost use Rattle.ags_text.specs.LineView.{line_at};
ghost use Rattle.ags_places.specs.Limit.{source_limit};
ghost use Rattle.ags_asm.specs.Pass.{IsFresh, IsPassed};
ghost use Rattle.ags_asm.specs.Passing.{IsMisread, IsTaken, IsTakenLine, IsWithinLimits};
ghost use Rattle.ags_card.specs.Spelling.{comment_card};
ghost use Rattle.ags_asm.specs.Source.{IsRefused};

use crate::half_words::HalfWords;
use ags_card::{Card, is_comment_card, read_card_into};
use ags_isa::Codes;
use ags_places::{
    AssembleError, PlaceFault, Placed, SOURCE_LIMIT, SourceError, SourceKind, Unplaced, count_of,
    is_end, place_card, place_of_word,
};
use ags_symbol::Symbols;
use ags_text::{Line, Lines};
use std::alloc::{AllocError, Global};

/// What is known of a source while its cards are read.
#[derive(Drop)]
pub(crate) struct Pass {
    /// The cards so far, up to the first that can't be placed.
    pub(crate) cards: Vec<Placed>,
    /// Their symbols.
    pub(crate) symbols: Symbols,
    /// The place of the next card.
    pub(crate) place: u16,
    /// Their words.
    pub(crate) words: HalfWords,
    /// The first card that can't be placed, by its number, and why. After it no card is placed.
    pub(crate) misplaced: Option<(u32, PlaceFault)>,
}

impl Pass {
    /// No card yet.
    pub(crate) fn new(alloc: Global) -> Result<Pass, AllocError>
        ensures { IfOk result IsFresh }
    {
        let words = HalfWords::new(alloc)?;
        Ok(Pass {
            cards: Vec::new(alloc),
            symbols: Symbols::new(alloc),
            place: 0,
            words,
            misplaced: None,
        })
    }

    /// Takes the next card. Not more than 4097 orders wait at any time: one for each place, and one that met a fault.
    fn take(
        &mut self,
        codes: &Codes,
        line: Line<'_>,
        number: u32,
        card: &Card,
    ) -> Result<(), AllocError>
        requires line { line.start + length line.bytes.now < 2 ^ 32 }
        requires within { IsWithinLimits self.old }
        requires positive { 0 < number }
        ensures taken { OnOk result (IsTaken codes.now (line_at line.entry) number card.now self.old self.new) }
        ensures within { OnOk result (IsWithinLimits self.new) }
        ensures fix_ups { OnOk result (length self.new.words.waiting.items ≤ 4097) }
    {
        if self.misplaced.is_some() {
            return Ok(());
        }
        let at = self.place;
        match place_card(&mut self.symbols, at, number, card) {
            Ok(next) => {
                self.words
                    .add(codes, &self.symbols, number, at, &card.body)?;
                self.cards.push(Placed::at(
                    line,
                    place_of_word(at, &card.body),
                    count_of(&card.body),
                ))?;
                self.place = next;
                Ok(())
            }
            Err(Unplaced::Fault(fault)) => {
                self.misplaced = Some((number, fault));
                Ok(())
            }
            Err(Unplaced::NoMemory) => Err(AllocError),
        }
    }

    /// Takes the next card, where it is a comment.
    fn take_comment(&mut self, line: Line<'_>) -> Result<(), AllocError>
        requires line { line.start + length line.bytes.now < 2 ^ 32 }
        requires within { IsWithinLimits self.old }
        ensures taken { OnOk result ((codes : List ℕ) (number : ℕ) → 0 < number → IsTaken codes (line_at line.entry) number comment_card self.old self.new) }
        ensures within { OnOk result (IsWithinLimits self.new) }
    {
        if self.misplaced.is_none() {
            self.cards.push(Placed::at(line, None, 0))?;
        }
        Ok(())
    }

    /// Reads the next line in place of the card before and takes its card: whether that ends the source.
    fn read(
        &mut self,
        codes: &Codes,
        line: Line<'_>,
        number: u32,
        card: &mut Card,
    ) -> Result<bool, AssembleError>
        requires line { line.start + length line.bytes.now < 2 ^ 32 }
        requires within { IsWithinLimits self.old }
        requires positive { 0 < number }
        ensures taken { IfOk result (λ last. IsTakenLine codes.now (line_at line.entry) number last self.old self.new) }
        ensures within { OnOk result (IsWithinLimits self.new) }
        ensures misread { IfErr result (IsMisread (line_at line.entry) number) }
    {
        match read_card_into(card, line.bytes) {
            Ok(()) => {
                self.take(codes, line, number, card)?;
                Ok(is_end(&card.body))
            }
            Err(fault) => {
                let kind = SourceKind::Card(fault);
                Err(AssembleError::Source(SourceError { card: number, kind }))
            }
        }
    }
}

/// Reads the cards of a source, each once.
pub(crate) fn read_cards(codes: &Codes, bytes: &[u8], pass: &mut Pass) -> Result<(), AssembleError>
    requires limit { length bytes.now ≤ source_limit }
    requires fresh { IsFresh pass.old }
    ensures passed { OnOk result (IsPassed codes.now bytes.now pass.new) }
    ensures refused { IfErr result (IsRefused bytes.now) }
{
    let mut card = Card::comment();
    let mut number: u32 = 0;
    for line in Lines::of(bytes) {
        number += 1;
        if is_comment_card(line.bytes) {
            pass.take_comment(line)?;
            continue;
        }
        if pass.read(codes, line, number, &mut card)? {
            return Ok(());
        }
    }
    Ok(())
}
