//! The constants of DEC and OCT: lists of them.

ghost use Rattle.std.specs.Prelude.{◌≡◌, ◌≤◌, [], ◌∷◌, length, take, Some, None, OnOk, OnErr, IfOk, IfErr};
ghost use Rattle.ags_decimal.specs.Decimal.{zero};
ghost use Rattle.ags_decimal.specs.Reading as decimal;
ghost use Rattle.ags_card.specs.Constant.{AreConstants};
ghost use Rattle.ags_card.specs.Reading.{list_reading, octal_reading};

use crate::cards::CardFault;
use crate::operands::read_signed_octal;
use ags_decimal::Decimal;
use ags_text::front_len;
use ags_word::Word;
use std::marker::Model;

/// How many constants a card has at most.
pub const MOST_CONSTANTS: usize = 64;

/// The words of an OCT, of which there are 1 to 64.
#[derive(Drop)]
pub struct OctList {
    /// The words, and further ones after them.
    words: [Word; MOST_CONSTANTS],
    /// How many of them are the list's.
    count: usize,
}

impl Model for OctList {
    ghost use Rattle.std.specs.Prelude.{ℕ, ◌≤◌, List, take};
    ghost use Rattle.ags_card.specs.Constant.{AreConstants};

    ghost Value = { List ℕ };

    ghost view = { λ list. take list.count list.words };

    ghost invariant = { λ list. AreConstants (take list.count list.words) × (list.count ≤ 64) };
}

/// The decimals of a DEC, of which there are 1 to 64.
#[derive(Drop)]
pub struct DecList {
    /// The decimals, and further ones after them.
    numbers: [Decimal; MOST_CONSTANTS],
    /// How many of them are the list's.
    count: usize,
}

impl Model for DecList {
    ghost use Rattle.std.specs.Prelude.{◌≤◌, List, take};
    ghost use Rattle.ags_decimal.specs.Decimal.{Parts};
    ghost use Rattle.ags_card.specs.Constant.{AreConstants};

    ghost Value = { List Parts };

    ghost view = { λ list. take list.count list.numbers };

    ghost invariant = { λ list. AreConstants (take list.count list.numbers) × (list.count ≤ 64) };
}

/// Puts the words of the octal numbers between a text's commas at the front of a list, and tells how many they are.
fn read_words(text: &[u8], words: &mut [Word]) -> Result<usize, CardFault>
    requires short { length text.now ≤ 120 }
    requires room { length words.old ≡ 64 }
    ensures read { IfOk result (λ count. list_reading octal_reading [] text.now ≡ Some (take count words.new)) }
    ensures constants { IfOk result (λ count. AreConstants (take count words.new) × (count ≤ 64)) }
    ensures fault { IfErr result (λ fault. (list_reading octal_reading [] text.now ≡ None) × (fault ≡ CardFault.BadOctal)) }
{
    let mut count = 0;
    let mut rest = text;
    loop {
        let (front, behind) = rest.split_at(front_len(rest, b','));
        let Some(word) = read_signed_octal(front) else {
            return Err(CardFault::BadOctal);
        };
        words[count] = word;
        count += 1;
        if behind.is_empty() {
            return Ok(count);
        }
        rest = &behind[1..];
    }
}

impl OctList {
    /// The words in order.
    pub fn items(&self) -> &[Word]
        ensures same { result.now ≡ self.now }
        ensures constants { AreConstants result.now }
    {
        &self.words[..self.count]
    }

    /// The one word 0.
    pub(crate) fn zero() -> OctList
        ensures { result ≡ 0 ∷ [] }
    {
        OctList {
            words: [Word::ZERO; MOST_CONSTANTS],
            count: 1,
        }
    }

    /// Reads the words of an operand in place of these, which are the one word 0 where some number of it is none.
    pub(crate) fn read(&mut self, operand: &[u8]) -> Result<(), CardFault>
        requires { length operand.now ≤ 120 }
        ensures read { OnOk result (list_reading octal_reading [] operand.now ≡ Some self.new) }
        ensures fault { IfErr result (λ fault. (list_reading octal_reading [] operand.now ≡ None) × (fault ≡ CardFault.BadOctal)) }
        ensures zero { OnErr result (self.new ≡ 0 ∷ []) }
    {
        match read_words(operand, &mut self.words) {
            Ok(count) => {
                self.count = count;
                Ok(())
            }
            Err(fault) => {
                *self = OctList::zero();
                Err(fault)
            }
        }
    }
}

/// Puts the decimals between a text's commas at the front of a list, and tells how many they are.
fn read_decimals(text: &[u8], numbers: &mut [Decimal]) -> Result<usize, CardFault>
    requires short { length text.now ≤ 120 }
    requires room { length numbers.old ≡ 64 }
    ensures read { IfOk result (λ count. list_reading decimal.reading [] text.now ≡ Some (take count numbers.new)) }
    ensures constants { IfOk result (λ count. AreConstants (take count numbers.new) × (count ≤ 64)) }
    ensures fault { IfErr result (λ fault. (list_reading decimal.reading [] text.now ≡ None) × (fault ≡ CardFault.BadDecimal)) }
{
    let mut count = 0;
    let mut rest = text;
    loop {
        let (front, behind) = rest.split_at(front_len(rest, b','));
        let Some(number) = ags_decimal::read(front) else {
            return Err(CardFault::BadDecimal);
        };
        numbers[count] = number;
        count += 1;
        if behind.is_empty() {
            return Ok(count);
        }
        rest = &behind[1..];
    }
}

impl DecList {
    /// The decimals in order.
    pub fn items(&self) -> &[Decimal]
        ensures same { result.now ≡ self.now }
        ensures constants { AreConstants result.now }
    {
        &self.numbers[..self.count]
    }

    /// The one number 0.
    pub(crate) fn zero() -> DecList
        ensures { result ≡ zero ∷ [] }
    {
        DecList {
            numbers: [Decimal::default(); MOST_CONSTANTS],
            count: 1,
        }
    }

    /// Reads the decimals of an operand in place of these, which are the one number 0 where some number of it is none.
    pub(crate) fn read(&mut self, operand: &[u8]) -> Result<(), CardFault>
        requires { length operand.now ≤ 120 }
        ensures read { OnOk result (list_reading decimal.reading [] operand.now ≡ Some self.new) }
        ensures fault { IfErr result (λ fault. (list_reading decimal.reading [] operand.now ≡ None) × (fault ≡ CardFault.BadDecimal)) }
        ensures zero { OnErr result (self.new ≡ zero ∷ []) }
    {
        match read_decimals(operand, &mut self.numbers) {
            Ok(count) => {
                self.count = count;
                Ok(())
            }
            Err(fault) => {
                *self = DecList::zero();
                Err(fault)
            }
        }
    }
}
