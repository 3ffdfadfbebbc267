//! The terms of an expression that have no value yet.

ghost use Rattle.std.specs.Prelude.{◌≡◌, ◌<◌, ◌≤◌, ◌++◌, [], ◌∷◌, length};

use ags_card::{Atom, MOST_TERMS, Term};
use std::marker::Model;

/// Terms whose symbols aren't defined yet, in their order: at most 64.
#[derive(Drop)]
pub struct OpenTerms {
    /// The terms, and further ones after them.
    terms: [Term; MOST_TERMS],
    /// How many of them are open.
    count: usize,
}

impl Model for OpenTerms {
    ghost use Rattle.std.specs.Prelude.{◌≤◌, List, take};
    ghost use Rattle.ags_card.specs.declared.terms.Term.{Term};

    ghost Value = { List Term };

    ghost view = { λ it. take it.count it.terms };

    ghost invariant = { λ it. it.count ≤ 64 };
}

impl OpenTerms {
    /// No terms.
    pub(crate) fn none() -> OpenTerms
        ensures { result ≡ [] }
    {
        let here = Term {
            minus: false,
            atom: Atom::Here,
        };
        OpenTerms {
            terms: [here; MOST_TERMS],
            count: 0,
        }
    }

    /// Puts a term after the others.
    pub(crate) fn push(&mut self, term: Term)
        requires { length self.old < 64 }
        ensures { self.new ≡ self.old ++ term ∷ [] }
    {
        self.terms[self.count] = term;
        self.count += 1;
    }

    /// The terms in order.
    pub fn items(&self) -> &[Term]
        ensures same { result.now ≡ self.now }
        ensures few { length self.now ≤ 64 }
    {
        &self.terms[..self.count]
    }
}
