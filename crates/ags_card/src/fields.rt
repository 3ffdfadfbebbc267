//! The fields of a card (docs/SOURCE.md, Cards).

ghost use Rattle.std.specs.Prelude.{◌≡◌};
ghost use Rattle.ags_card.specs.Reading.{symbol_field, operation_field, operand_field};

use ags_text::{split_field, split_leading_field};

/// The fields of a line that say something.
#[derive(Clone, Copy)]
pub(crate) struct Fields<'a> {
    /// What stands before the first blank: a card's symbol, where it has one.
    pub(crate) symbol: &'a [u8],
    /// The field after it.
    pub(crate) operation: &'a [u8],
    /// The field after that.
    pub(crate) operand: &'a [u8],
}

/// The fields of a line.
pub(crate) fn split_fields(line: &[u8]) -> Fields<'_>
    ensures symbol { result.symbol.now ≡ symbol_field line.now }
    ensures operation { result.operation.now ≡ operation_field line.now }
    ensures operand { result.operand.now ≡ operand_field line.now }
{
    let (symbol, behind_symbol) = split_leading_field(line);
    let (operation, behind_operation) = split_field(behind_symbol);
    let (operand, _) = split_field(behind_operation);
    Fields {
        symbol,
        operation,
        operand,
    }
}
