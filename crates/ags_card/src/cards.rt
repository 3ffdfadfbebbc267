//! Cards, and the faults of a line that is none.

ghost use Rattle.std.specs.Prelude.{◌≡◌};
ghost use Rattle.ags_card.specs.Spelling.{comment_card};

use crate::lists::{DecList, OctList};
use crate::names::Name;
use crate::terms::Terms;
use ags_isa::Order;
use std::fmt;

/// What a card asks for (docs/SOURCE.md, Cards).
#[derive(Drop)]
pub enum Body {
    /// Nothing: it is a comment.
    Comment,
    /// The word of an order.
    Order {
        /// The order.
        order: Order,
        /// The terms of its address. ABS and COM have the one term 0.
        terms: Terms,
        /// Whether the index bit is set. It isn't in ABS and COM.
        indexed: bool,
    },
    /// That the place be set to this.
    Org(Terms),
    /// That the card's symbol have this value: an EQU or a SYN.
    Equ(Terms),
    /// That the place be moved by this.
    Bss(Terms),
    /// That the place be moved by this, and that the card's symbol have the new place.
    Bes(Terms),
    /// The words of decimal numbers, one after the other.
    Dec(DecList),
    /// These words, one after the other.
    Oct(OctList),
    /// That the source end.
    End,
}

/// A card: the symbol in its symbol field, where it has one, and what it asks for.
#[derive(Drop)]
pub struct Card {
    /// The symbol that it defines. A comment has none, and `Equ` has one.
    pub symbol: Option<Name>,
    /// What it asks for.
    pub body: Body,
}

impl Card {
    /// The card of a comment.
    pub fn comment() -> Card
        ensures { result ≡ comment_card }
    {
        Card {
            symbol: None,
            body: Body::Comment,
        }
    }
}

/// Why a line is no card (docs/SOURCE.md, Faults). Of several, the first of this list is told.
#[derive(Clone, Copy, PartialEq, Eq)]
pub enum CardFault {
    /// A byte is no tab and no character from the space to the tilde.
    BadByte,
    /// There are more than 120 bytes.
    LongCard,
    /// The symbol field is no symbol, or an EQU or a SYN has none.
    BadSymbol,
    /// The operation is missing, or is none of the names.
    UnknownOperation,
    /// An operation that takes an operand has none.
    MissingOperand,
    /// A comma stands in the operand of ORG, EQU, SYN, BSS or BES.
    ExtraOperand,
    /// The operand of an order, ORG, EQU, SYN, BSS or BES is no expression.
    BadExpression,
    /// Some operand of DEC, an empty one too, is no decimal number, or one out of its limits.
    BadDecimal,
    /// Some operand of OCT, an empty one too, is no octal number.
    BadOctal,
}

/// Prints the fault as it stands in the line of a source's fault: its number and its name.
impl fmt::Display for CardFault {
    ghost use Rattle.std.specs.Prelude.{Some};
    ghost use Rattle.ags_card.specs.Spelling.{card_fault_text};

    ghost output = { λ fault. Some (card_fault_text fault) };

    fn fmt<W: fmt::Write>(&self, f: &mut fmt::Formatter<W>) -> fmt::Result {
        f.write_str(match self {
            CardFault::BadByte => "1 BadByte",
            CardFault::LongCard => "2 LongCard",
            CardFault::BadSymbol => "3 BadSymbol",
            CardFault::UnknownOperation => "4 UnknownOperation",
            CardFault::MissingOperand => "5 MissingOperand",
            CardFault::ExtraOperand => "6 ExtraOperand",
            CardFault::BadExpression => "7 BadExpression",
            CardFault::BadDecimal => "8 BadDecimal",
            CardFault::BadOctal => "9 BadOctal",
        })
    }
}
