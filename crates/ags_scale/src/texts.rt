//! What comes of scales, as it is printed.

ghost use Rattle.std.specs.Prelude.{Some};

use crate::answers::Scaled;
use ags_text::FourDigits;
use ags_verdict::CaseAt;
use std::fmt;

/// Prints that the scales agree, or what fails first, without a line feed; and nothing where the certificate isn't accepted
/// (docs/SCALES.md).
impl fmt::Display for Scaled {
    ghost use Rattle.ags_scale.specs.ScaledText.{scaled_text};

    ghost output = { λ scaled. Some (scaled_text scaled) };

    fn fmt<W: fmt::Write>(&self, f: &mut fmt::Formatter<W>) -> fmt::Result {
        match *self {
            Scaled::Agree { .. } => f.write_str("SCALES AGREE"),
            Scaled::Unsafe(_) => Ok(()),
            Scaled::StartMixed => f.write_str("STARTMIXED"),
            Scaled::Mixed {
                row,
                word,
                x,
                v,
                left,
                right,
            } => {
                let case = CaseAt { row, word, x, v };
                write!(f, "MIXED {case} LEFT {left} RIGHT {right}")
            }
            Scaled::NotHeld {
                row,
                word,
                x,
                v,
                next,
            } => {
                let case = CaseAt { row, word, x, v };
                let next = FourDigits(next);
                write!(f, "NOTHELD {case} NEXT {next}")
            }
        }
    }
}
