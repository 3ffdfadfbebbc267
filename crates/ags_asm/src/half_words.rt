//! The words of a source while its cards are read: the image so far, and the orders that wait. What is kept of a card is said
//! under the pairs that fit in the end, whichever those are that come after.

ghost use Rattle.std.specs.Prelude.{◌≡◌, ◌==◌, ◌+◌, ◌≤◌, ◌<◌, ◌++◌, [], ◌∷◌, ℕ, List, Some, None, OnOk, IfOk, length, replicate};
ghost use Rattle.ags_card.specs.declared.cards.Card.{Card};
ghost use Rattle.ags_image.specs.Image.{IsImage};
ghost use Rattle.ags_symbol.specs.Symbol.{Entry};
ghost use Rattle.ags_places.specs.Place.{count};
ghost use Rattle.ags_asm.specs.HalfMade.{AreFew, IsFreshWords, IsHalfMade, StandsNext, filled, owned_from, owners_of};
ghost use Rattle.ags_asm.specs.Waiting.{IsMade};
ghost use Rattle.ags_asm.specs.Word.{taken_from};

use crate::fix_ups::{FixUp, Made};
use crate::making::{make_decimals, make_order};
use ags_card::{Body, DecList, MOST_CONSTANTS, OctList, Terms};
use ags_image::Image;
use ags_isa::{Codes, Order};
use ags_places::WordFault;
use ags_symbol::Symbols;
use ags_word::{LOCATIONS, Word};
use std::alloc::{AllocError, Global};

/// The words of the cards so far.
#[derive(Drop)]
pub(crate) struct HalfWords {
    /// The words that are known.
    pub(crate) image: Image,
    /// For each place the number of the card that has a word there, or 0.
    pub(crate) owners: Vec<u32>,
    /// The orders that wait for a symbol, in the order of their cards.
    pub(crate) waiting: Vec<FixUp>,
    /// The first fault that was known at once, with its card's number. After it no word is made, and no further order waits.
    pub(crate) met: Option<(u32, WordFault)>,
}

/// For each place of the memory 0, since no card has a word there yet.
fn no_owners(alloc: Global) -> Result<Vec<u32>, AllocError>
    ensures { IfOk result (λ owners. owners.items ≡ replicate 4096 0) }
{
    vec![in alloc; 0u32; LOCATIONS as usize]
}

/// Of so many places from one on, the least that a card has.
fn first_taken(owners: &[u32], at: u16, many: u16) -> Option<WordFault>
    requires whole { length owners.now ≡ 4096 }
    requires room { at + many ≤ 4096 }
    ensures { result ≡ taken_from (owners_of owners.now) at many }
{
    if many == 0 {
        return None;
    }
    let first = owners[at as usize];
    if first != 0 {
        return Some(WordFault::PlaceTwice { first });
    }
    first_taken(owners, at + 1, many - 1)
}

/// Gives so many places from one on to a card.
fn own(owners: &mut [u32], at: u16, many: u16, number: u32)
    requires whole { length owners.old ≡ 4096 }
    requires room { at + many ≤ 4096 }
    ensures { owners.new ≡ owned_from owners.old at many number }
{
    if many == 0 {
        return;
    }
    owners[at as usize] = number;
    own(owners, at + 1, many - 1, number);
}

/// Puts words at a place and those after it.
fn fill(image: &mut Image, at: u16, words: &[Word])
    requires { at + length words.now ≤ 4096 }
    ensures filled { image.new ≡ filled image.old at words.now }
    ensures image { IsImage image.old → IsImage image.new }
{
    let [first, rest @ ..] = words else {
        return;
    };
    image.set(at, *first);
    fill(image, at + 1, rest);
}

impl HalfWords {
    /// The words of no card.
    pub(crate) fn new(alloc: Global) -> Result<HalfWords, AllocError>
        ensures { IfOk result IsFreshWords }
    {
        let image = Image::new(alloc)?;
        let owners = no_owners(alloc)?;
        Ok(HalfWords {
            image,
            owners,
            waiting: Vec::new(alloc),
            met: None,
        })
    }

    /// A card whose words are all known.
    fn add_words(&mut self, number: u32, at: u16, words: &[Word])
        requires not_met { self.old.met ≡ None }
        requires whole { length self.old.owners.items ≡ 4096 }
        requires room { at + length words.now ≤ 4096 }
        requires few { AreFew self.old }
        requires positive { 0 < number }
        ensures whole { length self.new.owners.items ≡ 4096 }
        ensures few { AreFew self.new }
        ensures step { (codes : List ℕ) (S : List Entry) (cards before left : List Card) (card : Card) → StandsNext S before number at
            → IsMade codes S number at card.body None words.now [] → IsHalfMade codes S cards before (card ∷ left) self.old
            → IsHalfMade codes S cards (card ∷ before) left self.new }
    {
        if let Some(fault) = first_taken(&self.owners, at, words.len() as u16) {
            self.met = Some((number, fault));
            return;
        }
        own(&mut self.owners, at, words.len() as u16, number);
        fill(&mut self.image, at, words);
    }

    /// A card whose order waits.
    fn add_waiting(&mut self, number: u32, at: u16, fix_up: FixUp) -> Result<(), AllocError>
        requires not_met { self.old.met ≡ None }
        requires whole { length self.old.owners.items ≡ 4096 }
        requires room { at < 4096 }
        requires there { fix_up.place ≡ at }
        requires few { AreFew self.old }
        requires positive { 0 < number }
        ensures whole { OnOk result (length self.new.owners.items ≡ 4096) }
        ensures few { OnOk result (AreFew self.new) }
        ensures step { OnOk result ((codes : List ℕ) (S : List Entry) (cards before left : List Card) (card : Card) → StandsNext S before number at
            → IsMade codes S number at card.body None [] (fix_up ∷ []) → IsHalfMade codes S cards before (card ∷ left) self.old
            → IsHalfMade codes S cards (card ∷ before) left self.new) }
    {
        self.waiting.push(fix_up)?;
        if let Some(fault) = first_taken(&self.owners, at, 1) {
            self.met = Some((number, fault));
            return Ok(());
        }
        own(&mut self.owners, at, 1, number);
        Ok(())
    }

    /// A card whose words have a fault.
    fn meet(&mut self, number: u32, at: u16, fault: WordFault)
        requires not_met { self.old.met ≡ None }
        requires few { AreFew self.old }
        ensures whole { self.new.owners ≡ self.old.owners }
        ensures few { AreFew self.new }
        ensures step { (codes : List ℕ) (S : List Entry) (cards before left : List Card) (card : Card) → StandsNext S before number at
            → IsMade codes S number at card.body (Some fault) [] [] → IsHalfMade codes S cards before (card ∷ left) self.old
            → IsHalfMade codes S cards (card ∷ before) left self.new }
    {
        self.met = Some((number, fault));
    }

    /// An order.
    fn add_order(
        &mut self,
        codes: &Codes,
        symbols: &Symbols,
        number: u32,
        at: u16,
        order: Order,
        terms: &Terms,
        indexed: bool,
    ) -> Result<(), AllocError>
        requires not_met { self.old.met ≡ None }
        requires whole { length self.old.owners.items ≡ 4096 }
        requires room { at < 4096 }
        requires few { AreFew self.old }
        requires positive { 0 < number }
        ensures whole { OnOk result (length self.new.owners.items ≡ 4096) }
        ensures few { OnOk result (AreFew self.new) }
        ensures step { OnOk result ((later : List Entry) (cards before left : List Card) (card : Card) → card.body ≡ Body.Order order terms.now indexed
            → StandsNext (symbols.now ++ later) before number at → IsHalfMade codes.now (symbols.now ++ later) cards before (card ∷ left) self.old
            → IsHalfMade codes.now (symbols.now ++ later) cards (card ∷ before) left self.new) }
    {
        match make_order(codes, symbols, number, at, order, terms, indexed) {
            Made::Word(word) => {
                self.add_words(number, at, &[word]);
                Ok(())
            }
            Made::Waits(fix_up) => self.add_waiting(number, at, fix_up),
            Made::Fault(fault) => {
                self.meet(number, at, fault);
                Ok(())
            }
        }
    }

    /// A DEC.
    fn add_decimals(&mut self, number: u32, at: u16, numbers: &DecList)
        requires not_met { self.old.met ≡ None }
        requires whole { length self.old.owners.items ≡ 4096 }
        requires room { at + length numbers.now ≤ 4096 }
        requires few { AreFew self.old }
        requires positive { 0 < number }
        ensures whole { length self.new.owners.items ≡ 4096 }
        ensures few { AreFew self.new }
        ensures step { (codes : List ℕ) (S : List Entry) (cards before left : List Card) (card : Card) → card.body ≡ Body.Dec numbers.now
            → StandsNext S before number at → IsHalfMade codes S cards before (card ∷ left) self.old → IsHalfMade codes S cards (card ∷ before) left self.new }
    {
        let numbers = numbers.items();
        let mut words = [Word::ZERO; MOST_CONSTANTS];
        if !make_decimals(numbers, &mut words, 0) {
            self.meet(number, at, WordFault::ValueRange);
            return;
        }
        self.add_words(number, at, &words[..numbers.len()]);
    }

    /// An OCT.
    fn add_octals(&mut self, number: u32, at: u16, words: &OctList)
        requires not_met { self.old.met ≡ None }
        requires whole { length self.old.owners.items ≡ 4096 }
        requires room { at + length words.now ≤ 4096 }
        requires few { AreFew self.old }
        requires positive { 0 < number }
        ensures whole { length self.new.owners.items ≡ 4096 }
        ensures few { AreFew self.new }
        ensures step { (codes : List ℕ) (S : List Entry) (cards before left : List Card) (card : Card) → card.body ≡ Body.Oct words.now
            → StandsNext S before number at → IsHalfMade codes S cards before (card ∷ left) self.old → IsHalfMade codes S cards (card ∷ before) left self.new }
    {
        self.add_words(number, at, words.items());
    }

    /// Makes the words of a card at its place, as far as the symbols are known.
    pub(crate) fn add(
        &mut self,
        codes: &Codes,
        symbols: &Symbols,
        number: u32,
        at: u16,
        body: &Body,
    ) -> Result<(), AllocError>
        requires whole { length self.old.owners.items ≡ 4096 }
        requires room { at + count body.now ≤ 4096 }
        requires few { AreFew self.old }
        requires positive { 0 < number }
        ensures whole { OnOk result (length self.new.owners.items ≡ 4096) }
        ensures few { OnOk result (AreFew self.new) }
        ensures step { OnOk result ((later : List Entry) (cards before left : List Card) (card : Card) → card.body ≡ body.now
            → StandsNext (symbols.now ++ later) before number at → IsHalfMade codes.now (symbols.now ++ later) cards before (card ∷ left) self.old
            → IsHalfMade codes.now (symbols.now ++ later) cards (card ∷ before) left self.new) }
    {
        if self.met.is_some() {
            return Ok(());
        }
        match body {
            Body::Order {
                order,
                terms,
                indexed,
            } => self.add_order(codes, symbols, number, at, *order, terms, *indexed),
            Body::Dec(numbers) => {
                self.add_decimals(number, at, numbers);
                Ok(())
            }
            Body::Oct(words) => {
                self.add_octals(number, at, words);
                Ok(())
            }
            _ => Ok(()),
        }
    }
}
