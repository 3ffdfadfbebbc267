//! What an expression comes to: the sum of its terms (docs/SOURCE.md, Expressions).

ghost use Rattle.std.specs.Prelude.{◌≡◌, ◌≤◌, ◌*◌, length, All, IfSome};
ghost use Rattle.ags_card.specs.Term.{HasSmallNumber};
ghost use Rattle.ags_symbol.specs.Symbol.{atom_value, term_value, sum_of};
ghost use Rattle.ags_symbol.specs.Bound.{IsAtMost};

use crate::Symbols;
use ags_card::{Atom, Term, Terms};

impl Symbols {
    /// What an atom stands for at a place.
    fn atom_value(&self, atom: &Atom, here: u16) -> Option<i32>
        requires place { here ≤ 4096 }
        requires number { HasSmallNumber atom.now }
        ensures value { result ≡ atom_value self.now here atom.now }
        ensures small { IfSome result (IsAtMost 999999) }
    {
        match atom {
            Atom::Number(number) => Some(*number as i32),
            Atom::Here => Some(i32::from(here)),
            Atom::Symbol(name) => self.get(name).map(|defined| defined.value),
        }
    }

    /// What a term stands for at a place, by its sign.
    pub(crate) fn term_value(&self, term: &Term, here: u16) -> Option<i32>
        requires place { here ≤ 4096 }
        requires number { HasSmallNumber term.now.atom }
        ensures value { result ≡ term_value self.now here term.now }
        ensures small { IfSome result (IsAtMost 999999) }
    {
        let value = self.atom_value(&term.atom, here)?;
        Some(if term.minus { -value } else { value })
    }

    /// The sum of at most 64 terms at a place, and nothing where one of their symbols isn't defined.
    pub fn sum_of_terms(&self, terms: &[Term], here: u16) -> Option<i32>
        requires place { here ≤ 4096 }
        requires few { length terms.now ≤ 64 }
        requires numbers { All (λ term. HasSmallNumber term.atom) terms.now }
        ensures value { result ≡ sum_of self.now here terms.now }
        ensures small { IfSome result (IsAtMost (999999 * length terms.now)) }
    {
        let [first, rest @ ..] = terms else {
            return Some(0);
        };
        let value = self.term_value(first, here)?;
        let others = self.sum_of_terms(rest, here)?;
        Some(value + others)
    }

    /// What an expression comes to at a place: the sum of its terms, and nothing where one of its symbols isn't defined.
    pub fn value_of(&self, terms: &Terms, here: u16) -> Option<i32>
        requires { here ≤ 4096 }
        ensures { result ≡ sum_of self.now here terms.now }
    {
        self.sum_of_terms(terms.items(), here)
    }
}
