//! What comes of a budget, as it is printed.

ghost use Rattle.std.specs.Prelude.{Some};

use crate::answers::Timed;
use ags_text::FourDigits;
use ags_verdict::CaseAt;
use std::fmt;

/// The location of a post, where there is one.
#[derive(Clone, Copy)]
struct Next(Option<u16>);

impl fmt::Display for Next {
    ghost use Rattle.ags_budget.specs.TimedText.{next_text};

    ghost output = { λ next. Some (next_text next.0) };

    fn fmt<W: fmt::Write>(&self, f: &mut fmt::Formatter<W>) -> fmt::Result {
        match self.0 {
            Some(location) => {
                let location = FourDigits(location);
                write!(f, "{location}")
            }
            None => f.write_str("----"),
        }
    }
}

/// Prints the greatest bound, or the first late case with what it needs, without a line feed; and nothing where the certificate isn't
/// accepted (docs/TIMES.md, The command).
impl fmt::Display for Timed {
    ghost use Rattle.ags_budget.specs.TimedText.{timed_text};

    ghost output = { λ timed. Some (timed_text timed) };

    fn fmt<W: fmt::Write>(&self, f: &mut fmt::Formatter<W>) -> fmt::Result {
        match *self {
            Timed::Within { greatest, .. } => write!(f, "WITHIN {greatest}"),
            Timed::Unsafe(_) => Ok(()),
            Timed::Over {
                row,
                word,
                x,
                v,
                next,
                needs,
                bound,
            } => {
                let case = CaseAt { row, word, x, v };
                let next = Next(next);
                write!(f, "OVER {case} NEXT {next} NEEDS {needs} BOUND {bound}")
            }
        }
    }
}
