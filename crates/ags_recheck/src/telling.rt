//! What is told of edits.

ghost use Rattle.std.specs.Prelude.{◌≡◌, Some};
ghost use Rattle.ags_recheck.specs.ToldText.{refused_text};

use ags_certtype::EditError;
use ags_check::Verdict;
use std::fmt;

/// What comes of an edit (docs/EDITS.md).
#[derive(Drop)]
pub enum Told {
    /// It was made, and this is the verdict of what stands then.
    Made(Verdict),
    /// It wasn't made, and nothing changed.
    NotMade(EditError),
}

/// The number and the name of what an edit is refused for.
fn refusal(error: EditError) -> &'static str
    ensures { result.now ≡ refused_text error }
{
    match error {
        EditError::NoRow => "1 NoRow",
        EditError::OutsideGlobal { .. } => "2 OutsideGlobal",
        EditError::BelowUse => "3 BelowUse",
        EditError::FullLocation => "4 FullLocation",
    }
}

/// Prints the verdict of what stands after the edit, or why it wasn't made, without a line feed (docs/EDITS.md).
impl fmt::Display for Told {
    ghost use Rattle.ags_recheck.specs.ToldText.{told_text};

    ghost output = { λ told. Some (told_text told) };

    fn fmt<W: fmt::Write>(&self, f: &mut fmt::Formatter<W>) -> fmt::Result {
        match self {
            Told::Made(verdict) => write!(f, "{verdict}"),
            Told::NotMade(error) => {
                let why = refusal(*error);
                write!(f, "NOTMADE {why}")
            }
        }
    }
}
