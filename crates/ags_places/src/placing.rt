//! What a card does at its place (docs/SOURCE.md, Places).

ghost use Rattle.std.specs.Prelude.{◌≡◌, ◌+◌, ◌≤◌, ◌++◌, pos, None, Some, OnOk, OnErr, IfOk, IfErr};
ghost use Rattle.std.specs.Option.{option_or};
ghost use Rattle.ags_symbol.specs.Symbol.{IsValue, sum_of};
ghost use Rattle.ags_places.specs.Effect.{IsEffect, IsUnplaced};
ghost use Rattle.ags_places.specs.Fault.{body_fault, twice, holds_words, place_fault_at, unless};
ghost use Rattle.ags_places.specs.Place.{pair_of, place_after, symbol_value};

use crate::source_error::PlaceFault;
use ags_card::{Body, Card, Name, Terms};
use ags_symbol::{DefineError, Symbols};
use ags_word::LOCATIONS;

/// The greatest value of a symbol; the least is its negative.
const VALUE_LIMIT: i32 = 262_143;

/// What a card does: the value of its symbol, and where it leaves the place.
#[derive(Clone, Copy)]
pub(crate) struct Effect {
    /// What the card's symbol stands for, where it has one.
    pub(crate) value: i32,
    /// The place of the next card.
    pub(crate) next: u16,
}

/// Why a card isn't placed.
#[derive(Clone, Copy)]
pub enum Unplaced {
    /// It has this fault.
    Fault(PlaceFault),
    /// There was too little memory.
    NoMemory,
}

/// A card that leaves its place as it is.
fn stay(place: u16) -> Effect
    requires { place ≤ 4096 }
    ensures value { result.value ≡ pos place }
    ensures next { result.next ≡ place }
    ensures is_value { IsValue result.value }
{
    Effect {
        value: i32::from(place),
        next: place,
    }
}

/// A card with so many words.
fn place_words(place: u16, count: u16) -> Result<Effect, PlaceFault>
    requires place { place ≤ 4096 }
    requires count { count ≤ 64 }
    ensures faultless { OnOk result (unless (holds_words place count) ≡ None) }
    ensures value { IfOk result (λ effect. effect.value ≡ pos place) }
    ensures next { IfOk result (λ effect. effect.next ≡ place + count) }
    ensures is_value { IfOk result (λ effect. IsValue effect.value) }
    ensures small { IfOk result (λ effect. effect.next ≤ 4096) }
    ensures fault { IfErr result (λ fault. unless (holds_words place count) ≡ Some fault) }
{
    let next = place + count;
    if next <= LOCATIONS {
        Ok(Effect {
            value: i32::from(place),
            next,
        })
    } else {
        Err(PlaceFault::PlaceRange)
    }
}

/// What an operand comes to at its place.
fn read_operand(symbols: &Symbols, place: u16, terms: &Terms) -> Result<i32, PlaceFault>
    requires { place ≤ 4096 }
    ensures value { IfOk result (λ value. sum_of symbols.now place terms.now ≡ Some value) }
    ensures undefined { IfErr result (λ fault. (sum_of symbols.now place terms.now ≡ None) × (fault ≡ PlaceFault.UndefinedEarly)) }
{
    symbols
        .value_of(terms, place)
        .ok_or(PlaceFault::UndefinedEarly)
}

/// An ORG.
fn set_place(symbols: &Symbols, place: u16, terms: &Terms) -> Result<Effect, PlaceFault>
    requires { place ≤ 4096 }
    ensures effect { IfOk result (IsEffect symbols.now place (Body.Org terms.now)) }
    ensures fault { IfErr result (λ fault. body_fault symbols.now place (Body.Org terms.now) ≡ Some fault) }
{
    let value = read_operand(symbols, place, terms)?;
    if value < 0 || value >= i32::from(LOCATIONS) {
        return Err(PlaceFault::PlaceRange);
    }
    let next = value as u16;
    Ok(Effect { value, next })
}

/// An EQU.
fn give_value(symbols: &Symbols, place: u16, terms: &Terms) -> Result<Effect, PlaceFault>
    requires { place ≤ 4096 }
    ensures effect { IfOk result (IsEffect symbols.now place (Body.Equ terms.now)) }
    ensures fault { IfErr result (λ fault. body_fault symbols.now place (Body.Equ terms.now) ≡ Some fault) }
{
    let value = read_operand(symbols, place, terms)?;
    if value < -VALUE_LIMIT || value > VALUE_LIMIT {
        return Err(PlaceFault::PlaceRange);
    }
    let next = place;
    Ok(Effect { value, next })
}

/// A BSS.
fn move_place(symbols: &Symbols, place: u16, terms: &Terms) -> Result<Effect, PlaceFault>
    requires { place ≤ 4096 }
    ensures effect { IfOk result (IsEffect symbols.now place (Body.Bss terms.now)) }
    ensures fault { IfErr result (λ fault. body_fault symbols.now place (Body.Bss terms.now) ≡ Some fault) }
{
    let size = read_operand(symbols, place, terms)?;
    if size < 0 || size > i32::from(LOCATIONS) - i32::from(place) {
        return Err(PlaceFault::PlaceRange);
    }
    let value = i32::from(place);
    let next = place + size as u16;
    Ok(Effect { value, next })
}

/// A BES.
fn move_before(symbols: &Symbols, place: u16, terms: &Terms) -> Result<Effect, PlaceFault>
    requires { place ≤ 4096 }
    ensures effect { IfOk result (IsEffect symbols.now place (Body.Bes terms.now)) }
    ensures fault { IfErr result (λ fault. body_fault symbols.now place (Body.Bes terms.now) ≡ Some fault) }
{
    let size = read_operand(symbols, place, terms)?;
    if size < 0 || size > i32::from(LOCATIONS) - i32::from(place) {
        return Err(PlaceFault::PlaceRange);
    }
    let next = place + size as u16;
    let value = i32::from(next);
    Ok(Effect { value, next })
}

/// What a card does at its place.
fn effect_of(symbols: &Symbols, place: u16, body: &Body) -> Result<Effect, PlaceFault>
    requires { place ≤ 4096 }
    ensures effect { IfOk result (IsEffect symbols.now place body.now) }
    ensures fault { IfErr result (λ fault. body_fault symbols.now place body.now ≡ Some fault) }
{
    match body {
        Body::Comment | Body::End => Ok(stay(place)),
        Body::Order { .. } => place_words(place, 1),
        Body::Dec(numbers) => place_words(place, numbers.items().len() as u16),
        Body::Oct(words) => place_words(place, words.items().len() as u16),
        Body::Org(terms) => set_place(symbols, place, terms),
        Body::Equ(terms) => give_value(symbols, place, terms),
        Body::Bss(terms) => move_place(symbols, place, terms),
        Body::Bes(terms) => move_before(symbols, place, terms),
    }
}

/// Gives a card's symbol its value, where the card has one.
fn define_symbol(
    symbols: &mut Symbols,
    symbol: Option<Name>,
    value: i32,
    number: u32,
) -> Result<(), Unplaced>
    requires { IsValue value }
    ensures defined { OnOk result (symbols.new ≡ symbols.old ++ pair_of symbol value number) }
    ensures once { OnOk result (twice symbols.old symbol ≡ None) }
    ensures unplaced { IfErr result (IsUnplaced (twice symbols.old symbol)) }
    ensures unchanged { OnErr result (symbols.new ≡ symbols.old) }
{
    let Some(name) = symbol else {
        return Ok(());
    };
    match symbols.define(name, value, number) {
        Ok(()) => Ok(()),
        Err(DefineError::Twice { first }) => Err(Unplaced::Fault(PlaceFault::SymbolTwice {
            first,
        })),
        Err(DefineError::NoMemory) => Err(Unplaced::NoMemory),
    }
}

/// A fault of a card, unless its symbol is at fault, which comes before.
fn symbol_first(symbols: &Symbols, symbol: Option<Name>, fault: PlaceFault) -> PlaceFault
    ensures { option_or (twice symbols.now symbol) (Some fault) ≡ Some result }
{
    let Some(name) = symbol else {
        return fault;
    };
    match symbols.get(&name) {
        Some(earlier) => PlaceFault::SymbolTwice {
            first: earlier.card,
        },
        None => fault,
    }
}

/// Places the card of a number at a place: gives its symbol its value, and answers the place of the next card. Operands are taken
/// over the symbols that are defined so far. A symbol that an earlier card defines is at fault before the card's operand is, and
/// after a fault no symbol is defined.
pub fn place_card(
    symbols: &mut Symbols,
    place: u16,
    number: u32,
    card: &Card,
) -> Result<u16, Unplaced>
    requires { place ≤ 4096 }
    ensures faultless { OnOk result (place_fault_at symbols.old place card.now ≡ None) }
    ensures pair { OnOk result (symbols.new ≡ symbols.old ++ pair_of card.now.symbol (symbol_value symbols.old place card.now.body) number) }
    ensures next { IfOk result (λ next. next ≡ place_after symbols.old place card.now.body) }
    ensures small { IfOk result (λ next. next ≤ 4096) }
    ensures unplaced { IfErr result (IsUnplaced (place_fault_at symbols.old place card.now)) }
    ensures unchanged { OnErr result (symbols.new ≡ symbols.old) }
{
    let effect = match effect_of(symbols, place, &card.body) {
        Ok(effect) => effect,
        Err(fault) => return Err(Unplaced::Fault(symbol_first(symbols, card.symbol, fault))),
    };
    define_symbol(symbols, card.symbol, effect.value, number)?;
    Ok(effect.next)
}
