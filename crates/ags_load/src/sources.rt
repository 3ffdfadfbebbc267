//! The source of a workload.

ghost use Rattle.std.specs.Prelude.{◌≡◌, ◌≤◌, IfOk, length};
ghost use Rattle.ags_load.specs.Workload.{source_text};

use std::alloc::{AllocError, Global};

/// The cell for the return word.
const FIRST_CARDS: &str = " ORG /20\nRET BSS 1\n ORG /4000\n";

/// One call of the subroutine, and a store of what it leaves.
const CALL_CARDS: &str = " TSQ SUB\n STO /30\n";

/// The wait for the next pulse, and the subroutine.
const LAST_CARDS: &str =
    " DLY /4000\nSUB STQ RET\n INP /2001\n LRS 2\n ADD ONE\n TRA RET\nONE OCT 1\n END\n";

/// The source with so many calls of the subroutine, from 1 to 400 (docs/WORKLOAD.md): it has 2n + 11 cards and 2n + 7 words. An error
/// says that memory ran out.
pub fn source(alloc: Global, n: u32) -> Result<Vec<u8>, AllocError>
    requires one { 1 ≤ n }
    requires many { n ≤ 400 }
    ensures text { IfOk result (λ text. text.items ≡ source_text n) }
    ensures within { IfOk result (λ text. length text.items ≤ 4194304) }
{
    let mut text = String::new(alloc);
    text.push_str(FIRST_CARDS)?;
    for _call in 0..n {
        text.push_str(CALL_CARDS)?;
    }
    text.push_str(LAST_CARDS)?;
    Ok(text.into_bytes())
}
