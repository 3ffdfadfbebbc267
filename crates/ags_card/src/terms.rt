//! The terms of an expression.

ghost use Rattle.std.specs.Prelude.{◌≡◌, ◌≤◌, length, Some, None, OnOk, OnErr, IfErr};
ghost use Rattle.ags_card.specs.Reading.{expression_reading};
ghost use Rattle.ags_card.specs.Term.{AreTerms, zero_terms};

use crate::cards::CardFault;
use crate::expressions::read_expression;
use crate::names::Name;
use std::marker::Model;

/// What a term stands for (docs/SOURCE.md, Expressions).
#[derive(Clone, Copy, Default)]
pub enum Atom {
    /// A number, written in octal or in decimal digits.
    Number(u32),
    /// The place of the card before it acts.
    #[default]
    Here,
    /// The value of a symbol.
    Symbol(Name),
}

/// A term of an expression with its sign.
#[derive(Clone, Copy, Default)]
pub struct Term {
    /// Whether it is taken away.
    pub minus: bool,
    /// What it stands for.
    pub atom: Atom,
}

/// How many terms an expression has at most.
pub const MOST_TERMS: usize = 64;

/// The terms of an expression, which stands for their sum: 1 to 64, each number among them at most 999,999.
#[derive(Drop)]
pub struct Terms {
    /// The terms, and further ones after them.
    terms: [Term; MOST_TERMS],
    /// How many of them are the expression's.
    count: usize,
}

impl Model for Terms {
    ghost use Rattle.std.specs.Prelude.{◌≤◌, List, take};
    ghost use Rattle.ags_card.specs.declared.terms.Term.{Term};
    ghost use Rattle.ags_card.specs.Term.{AreTerms};

    ghost Value = { List Term };

    ghost view = { λ it. take it.count it.terms };

    ghost invariant = { λ it. AreTerms (take it.count it.terms) × (it.count ≤ 64) };
}

impl Terms {
    /// The terms, from the first to the last.
    pub fn items(&self) -> &[Term]
        ensures same { result.now ≡ self.now }
        ensures terms { AreTerms result.now }
    {
        &self.terms[..self.count]
    }

    /// Reads the terms of an expression in place of these, which are the one term 0 where the text is none.
    pub(crate) fn read(&mut self, text: &[u8]) -> Result<(), CardFault>
        requires { length text.now ≤ 120 }
        ensures read { OnOk result (expression_reading text.now ≡ Some self.new) }
        ensures fault { IfErr result (λ fault. (expression_reading text.now ≡ None) × (fault ≡ CardFault.BadExpression)) }
        ensures zero { OnErr result (self.new ≡ zero_terms) }
    {
        match read_expression(text, &mut self.terms) {
            Ok(count) => {
                self.count = count;
                Ok(())
            }
            Err(fault) => {
                *self = Terms::zero();
                Err(fault)
            }
        }
    }

    /// The one term 0.
    pub(crate) fn zero() -> Terms
        ensures { result ≡ zero_terms }
    {
        let zero = Term {
            minus: false,
            atom: Atom::Number(0),
        };
        Terms {
            terms: [zero; MOST_TERMS],
            count: 1,
        }
    }
}
