//! What fails in a row, as a refusal of the certificate.

ghost use Rattle.std.specs.Prelude.{◌≡◌, ℕ, Ok, Err};
ghost use Rattle.ags_domain.specs.declared.values.Value.{Value};
ghost use Rattle.ags_verdict.specs.Fault.{refusal_of, refusal_of_stop};
ghost use Rattle.ags_verdict.specs.declared.verdicts.RowFault.{RowFault};
ghost use Rattle.ags_verdict.specs.declared.walks.AtRow.{AtRow};

use crate::answers::{Refusal, RowFault};
use ags_domain::Value;
use ags_transfer::Stop;
use ags_verdict::AtRow;
use ags_word::Word;

/// The refusal that tells a stop, by the row's number and the case's word.
fn refusal_of_stop(row: u32, word: Word, stop: &Stop<Value>) -> Refusal
    ensures { result ≡ refusal_of_stop row word stop.now }
{
    match stop {
        Stop::NoOrder => Refusal::NoOrder { row, word },
        Stop::BadPort => Refusal::BadPort { row, word },
        Stop::FixedWrite { address } => Refusal::FixedWrite {
            row,
            word,
            address: *address,
        },
        Stop::MayOverflow(operands) => Refusal::MayOverflow {
            row,
            word,
            operands: *operands,
        },
        Stop::CellRange { address, value } => Refusal::CellRange {
            row,
            word,
            address: *address,
            value: *value,
        },
        Stop::OutputRange { address, value } => Refusal::OutputRange {
            row,
            word,
            address: *address,
            value: *value,
        },
    }
}

/// The refusal that tells what fails in a row, by the row's number.
pub fn refusal_of(row: u32, fault: &RowFault) -> Refusal
    ensures { result ≡ refusal_of row fault.now }
{
    match fault {
        RowFault::CodeUnknown => Refusal::CodeUnknown { row },
        RowFault::Stops { word, stop } => refusal_of_stop(row, *word, stop),
        RowFault::NotCovered { word, x, v, next } => Refusal::NotCovered {
            row,
            word: *word,
            x: *x,
            v: *v,
            next: *next,
        },
    }
}

/// What comes of the rows as what comes of the certificate.
pub(crate) fn refusal_at(outcome: Result<u64, AtRow<RowFault>>) -> Result<u64, Refusal>
    ensures counted { (count : ℕ) → outcome ≡ Ok count → result ≡ Ok count }
    ensures refused { (told : AtRow (RowFault Value)) → outcome ≡ Err told → result ≡ Err (refusal_of told.row told.fault) }
{
    match outcome {
        Ok(count) => Ok(count),
        Err(told) => Err(refusal_of(told.row, &told.fault)),
    }
}
