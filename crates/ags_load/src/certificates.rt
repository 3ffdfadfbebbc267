//! The certificate of a workload.

ghost use Rattle.std.specs.Prelude.{◌≡◌, ℕ, ◌+◌, ◌*◌, ◌≤◌, [], ◌∷◌, ◌++◌, IfOk, OnOk, length, string_bytes};
ghost use Rattle.ags_load.specs.Printed.{q_text};
ghost use Rattle.ags_load.specs.Workload.{call_rows, cert_text, inner_rows, return_at, return_word, row_line, subroutine_at, subroutine_rows, text_of};

use crate::lines::{InQ, RowLine};
use ags_word::{SixDigits, Word};
use std::alloc::{AllocError, Global};

/// The limits, and the location of the start.
const FIRST_LINES: &str =
    "AGSCERT 1\nSTART 4000\nCELL 0030 RANGE -98 100\nIN 2001 RANGE -396 396\n";

/// The location of the first call.
const FIRST_CALL: u16 = 2048;

/// The location of the cell with the return word.
const RETURN_CELL: u16 = 16;

/// What the subroutine leaves in A.
const QUARTER_AND_ONE: &str = "RANGE -98 100";

/// The location after a call, the first being number 1.
fn return_at(call: u16) -> u16
    requires one { 1 ≤ call }
    requires many { call ≤ 400 }
    ensures { result ≡ return_at call }
{
    FIRST_CALL - 1 + 2 * call
}

/// The location of the subroutine, after so many calls and the wait.
fn subroutine_at(n: u16) -> u16
    requires { n ≤ 400 }
    ensures { result ≡ subroutine_at n }
{
    FIRST_CALL + 1 + 2 * n
}

/// The word that a call leaves in Q: a transfer to the location after it.
fn return_word(call: u16) -> Word
    requires one { 1 ≤ call }
    requires many { call ≤ 400 }
    ensures { result ≡ return_word call }
{
    match Word::of(131_072 + u32::from(return_at(call))) {
        Some(word) => word,
        None => unreachable!(),
    }
}

/// Adds a row's line.
fn add_row(text: &mut String, location: u16, a: &'static str, q: InQ) -> Result<(), AllocError>
    ensures { OnOk result (string_bytes text.new ≡ string_bytes text.old ++ text_of (row_line location a.now (q_text q) ∷ [])) }
{
    let row = RowLine { location, a, q };
    write!(text, "{row}\n")
}

/// Adds the rows of a call and of the store after it.
fn add_call(text: &mut String, call: u16) -> Result<(), AllocError>
    requires one { 1 ≤ call }
    requires many { call ≤ 400 }
    ensures { OnOk result (string_bytes text.new ≡ string_bytes text.old ++ text_of (call_rows call)) }
{
    let location = return_at(call);
    add_row(text, location - 1, "ANY", InQ::Any)?;
    add_row(text, location, QUARTER_AND_ONE, InQ::Any)
}

/// Adds the row of a location in the subroutine, while the cell holds this return word.
fn add_inner(
    text: &mut String,
    location: u16,
    a: &'static str,
    word: Word,
) -> Result<(), AllocError>
    ensures { (call : ℕ) → word ≡ return_word call → OnOk result (string_bytes text.new ≡ string_bytes text.old ++ text_of (inner_rows location a.now call)) }
{
    add_row(text, location, a, InQ::Any)?;
    let word = SixDigits(word);
    write!(text, "AT 0020 WORDS {word}\n")
}

/// Adds the rows of the subroutine for a call, where there are so many.
fn add_subroutine(text: &mut String, n: u16, call: u16) -> Result<(), AllocError>
    requires one { 1 ≤ call }
    requires among { call ≤ n }
    requires many { n ≤ 400 }
    ensures { OnOk result (string_bytes text.new ≡ string_bytes text.old ++ text_of (subroutine_rows n call)) }
{
    let first = subroutine_at(n);
    let word = return_word(call);
    add_row(text, first, "ANY", InQ::Return(word))?;
    add_inner(text, first + 1, "ANY", word)?;
    add_inner(text, first + 2, "RANGE -396 396", word)?;
    add_inner(text, first + 3, "RANGE -99 99", word)?;
    add_inner(text, first + 4, QUARTER_AND_ONE, word)?;
    add_inner(text, RETURN_CELL, QUARTER_AND_ONE, word)
}

/// The certificate of the source with so many calls, from 1 to 400 (docs/WORKLOAD.md): it has 8n + 1 rows. An error says that memory
/// ran out.
pub fn cert(alloc: Global, n: u32) -> Result<Vec<u8>, AllocError>
    requires one { 1 ≤ n }
    requires many { n ≤ 400 }
    ensures text { IfOk result (λ text. text.items ≡ cert_text n) }
    ensures within { IfOk result (λ text. length text.items ≤ 67108864) }
{
    let calls = n as u16;
    let mut text = String::new(alloc);
    text.push_str(FIRST_LINES)?;
    for passed in 0..calls {
        add_call(&mut text, passed + 1)?;
    }
    add_row(&mut text, FIRST_CALL + 2 * calls, "ANY", InQ::Any)?;
    for served in 0..calls {
        add_subroutine(&mut text, calls, served + 1)?;
    }
    text.push_str("END\n")?;
    Ok(text.into_bytes())
}
