//! Sending the line of a verdict with what comes after it.

ghost use Rattle.std.specs.Prelude.{◌≡◌, ◌++◌, ℕ, List, IfOk, OnOk, OnErr};
ghost use Rattle.std.specs.String.{string_bytes};
ghost use Rattle.ags_outside.specs.Count.{HasCause};
ghost use Rattle.ags_outside.specs.Send.{is_write_fault};
ghost use Rattle.ags_outside.specs.Sink.{WroteFront, appended};
ghost use Rattle.ags_program.specs.Text.{verdict_line};

use ags_check::Verdict;
use ags_outside::{SendError, Sink};
use ags_plan::send_line;
use ags_played::verdict_line;
use std::alloc::{AllocError, Global};

/// Sends the line of a verdict, and after it one that was to be made, where there was memory for it.
pub(crate) fn send_verdict_and<K: Sink>(
    alloc: Global,
    verdict: &Verdict,
    line: Result<String, AllocError>,
    out: &mut K,
) -> Result<(), SendError>
    ensures sent { (text : List ℕ) → IfOk line (λ made. string_bytes made ≡ text)
        → OnOk result (K.told out.new ≡ appended (K.told out.old) (verdict_line verdict.now ++ text)) }
    ensures front { (text : List ℕ) → IfOk line (λ made. string_bytes made ≡ text)
        → OnErr result (WroteFront (K.told out.old) (K.told out.new) (verdict_line verdict.now ++ text)) }
    ensures faults { HasCause (K.faults out.old) (K.faults out.new) (is_write_fault result) }
{
    send_line(verdict_line(alloc, verdict), out)?;
    send_line(line, out)
}
