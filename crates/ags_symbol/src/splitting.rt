//! An expression of which some symbols aren't defined yet: the sum of the terms that have a value, and the others.

ghost use Rattle.std.specs.Prelude.{◌≡◌, ◌≤◌, ◌+◌, ◌*◌, ◌++◌, length, All};
ghost use Rattle.ags_card.specs.Term.{HasSmallNumber};
ghost use Rattle.ags_symbol.specs.Bound.{IsAtMost};
ghost use Rattle.ags_symbol.specs.Split.{known_sum, open_terms};

use crate::{OpenTerms, Symbols};
use ags_card::{Term, Terms};

impl Symbols {
    /// The sum of those of some terms that have a value; the others are put after those that are unknown.
    fn split_terms(&self, terms: &[Term], here: u16, unknown: &mut OpenTerms) -> i32
        requires place { here ≤ 4096 }
        requires room { length unknown.old + length terms.now ≤ 64 }
        requires numbers { All (λ term. HasSmallNumber term.atom) terms.now }
        ensures sum { result ≡ known_sum self.now here terms.now }
        ensures open { unknown.new ≡ unknown.old ++ open_terms self.now here terms.now }
        ensures small { IsAtMost (999999 * length terms.now) result }
    {
        let [first, rest @ ..] = terms else {
            return 0;
        };
        let Some(value) = self.term_value(first, here) else {
            unknown.push(*first);
            return self.split_terms(rest, here, unknown);
        };
        let others = self.split_terms(rest, here, unknown);
        value + others
    }

    /// The sum of those terms of an expression whose symbols are defined, at most 63,999,936 of either sign, and the other terms
    /// in their order. What these come to later, `sum_of_terms` tells.
    pub fn split(&self, terms: &Terms, here: u16) -> (i32, OpenTerms)
        requires { here ≤ 4096 }
        ensures sum { result.0 ≡ known_sum self.now here terms.now }
        ensures open { result.1 ≡ open_terms self.now here terms.now }
        ensures small { IsAtMost 63999936 result.0 }
        ensures few { length result.1 ≤ 64 }
        ensures numbers { All (λ term. HasSmallNumber term.atom) result.1 }
    {
        let mut unknown = OpenTerms::none();
        let sum = self.split_terms(terms.items(), here, &mut unknown);
        (sum, unknown)
    }
}
