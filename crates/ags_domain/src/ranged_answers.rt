//! The answers of ranges as those of values.

ghost use Rattle.ags_domain.specs.Ranged.{IsRangedAnswer};

use crate::operands::Operands;
use crate::ranges::Range;
use crate::values::Value;

/// The answer of two ranges as that of two values.
pub(crate) fn ranged(answer: Result<Range, Operands>) -> Result<Value, Operands>
    ensures { IsRangedAnswer answer result }
{
    match answer {
        Ok(range) => Ok(Value::Range(range)),
        Err(operands) => Err(operands),
    }
}
