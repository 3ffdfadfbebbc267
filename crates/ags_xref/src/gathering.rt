//! For each symbol the numbers of the cards whose operand names it.

ghost use Rattle.std.specs.Prelude.{◌≡◌, ◌≤◌, [], length, map, All, OnOk, IfOk, slice_range};
ghost use Rattle.ags_card.specs.Reading.{reading};
ghost use Rattle.ags_places.specs.Deck.{card_of};
ghost use Rattle.ags_asm.specs.Source.{AreSpans};
ghost use Rattle.ags_places.specs.Limit.{source_limit};
ghost use Rattle.ags_xref.specs.Gathering.{AreRows, Changes, Gathered, all_noted, card_at, noted, once_behind};
ghost use Rattle.ags_xref.specs.Naming.{operand_terms};

use crate::rows::{Row, position_of};
use ags_asm::Placed;
use ags_card::{Atom, Body, Card, Term, read_card_into};
use std::alloc::{AllocError, Global};

/// The terms of a card's operand.
fn operand_terms(body: &Body) -> &[Term]
    ensures { result.now ≡ operand_terms body.now }
{
    match body {
        Body::Order { terms, .. }
        | Body::Org(terms)
        | Body::Equ(terms)
        | Body::Bss(terms)
        | Body::Bes(terms) => terms.items(),
        Body::Comment | Body::Dec(_) | Body::Oct(_) | Body::End => &[],
    }
}

/// Puts a card's number after earlier ones, unless it is the last of them.
fn push_once(numbers: &mut Vec<u32>, number: u32) -> Result<(), AllocError>
    ensures { OnOk result (numbers.new.items ≡ once_behind numbers.old.items number) }
{
    if numbers.last() == Some(&number) {
        return Ok(());
    }
    numbers.push(number)?;
    Ok(())
}

/// Notes a card for the symbol that a term of it names, where it names one.
fn note_term(
    rows: &[Row],
    naming: &mut Vec<Vec<u32>>,
    number: u32,
    term: &Term,
) -> Result<(), AllocError>
    requires rows { AreRows rows.now }
    requires long { length naming.old.items ≡ length rows.now }
    ensures { OnOk result (Changes rows.now (λ name numbers. noted name number term.now numbers) naming.old.items naming.new.items) }
{
    let Atom::Symbol(name) = term.atom else {
        return Ok(());
    };
    let Some(position) = position_of(rows, &name) else {
        return Ok(());
    };
    push_once(&mut naming[position], number)
}

/// Notes a card for each symbol that its terms name.
fn note_terms(
    rows: &[Row],
    naming: &mut Vec<Vec<u32>>,
    number: u32,
    terms: &[Term],
) -> Result<(), AllocError>
    requires rows { AreRows rows.now }
    requires long { length naming.old.items ≡ length rows.now }
    ensures { OnOk result (Changes rows.now (λ name numbers. all_noted name number terms.now numbers) naming.old.items naming.new.items) }
{
    let [first, rest @ ..] = terms else {
        return Ok(());
    };
    note_term(rows, naming, number, first)?;
    note_terms(rows, naming, number, rest)
}

/// Notes the card of a line for each symbol that its operand names. `card` is room for it.
fn note_card(
    rows: &[Row],
    naming: &mut Vec<Vec<u32>>,
    number: u32,
    line: &[u8],
    card: &mut Card,
) -> Result<(), AllocError>
    requires rows { AreRows rows.now }
    requires long { length naming.old.items ≡ length rows.now }
    ensures { OnOk result (Changes rows.now (λ name numbers. all_noted name number (operand_terms (card_of (reading line.now)).body) numbers) naming.old.items naming.new.items) }
{
    match read_card_into(card, line) {
        Ok(()) => note_terms(rows, naming, number, operand_terms(&card.body)),
        Err(_) => Ok(()),
    }
}

/// No numbers for any of that many symbols.
fn no_numbers(alloc: Global, count: usize) -> Result<Vec<Vec<u32>>, AllocError>
    ensures long { IfOk result (λ naming. length naming.items ≡ count) }
    ensures empty { IfOk result (λ naming. All (λ numbers. numbers.items ≡ []) naming.items) }
{
    let mut naming = Vec::new(alloc);
    for _ in 0..count {
        naming.push(Vec::new(alloc))?;
    }
    Ok(naming)
}

/// The line of a card.
fn line_of<'a>(source: &'a [u8], card: &Placed) -> &'a [u8]
    requires ordered { card.now.start ≤ card.now.end }
    requires within { card.now.end ≤ length source.now }
    ensures { result.now ≡ slice_range source.now card.now.start card.now.end }
{
    &source[card.start as usize..card.end as usize]
}

/// For each row the numbers of the cards whose operand names its symbol.
pub(crate) fn gather_naming(
    alloc: Global,
    source: &[u8],
    placed: &[Placed],
    rows: &[Row],
) -> Result<Vec<Vec<u32>>, AllocError>
    requires limit { length source.now ≤ source_limit }
    requires spans { AreSpans 0 (length source.now) placed.now }
    requires rows { AreRows rows.now }
    ensures { IfOk result (λ gathered. Gathered rows.now (map (card_at source.now) placed.now) gathered.items) }
{
    let mut naming = no_numbers(alloc, rows.len())?;
    let mut room = Card::comment();
    for (index, card) in placed.iter().enumerate() {
        let line = line_of(source, card);
        note_card(rows, &mut naming, index as u32 + 1, line, &mut room)?;
    }
    Ok(naming)
}
