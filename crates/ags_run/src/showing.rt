//! What is shown: a line, sent with its line feed.

ghost use Rattle.std.specs.Prelude.{◌≡◌, ◌<◌, ◌≤◌, List, [], ◌∷◌, ◌++◌, codes, length, None, OnOk, OnErr};
ghost use Rattle.ags_deda.specs.Happening.{Happening};
ghost use Rattle.ags_deda.specs.Standing.{StandsFor};
ghost use Rattle.ags_outside.specs.Count.{HasCause};
ghost use Rattle.ags_outside.specs.Send.{is_write_fault};
ghost use Rattle.ags_outside.specs.Sink.{appended, WroteFront};
ghost use Rattle.ags_play.specs.Act as act;
ghost use Rattle.ags_play.specs.Doing.{deda_text};
ghost use Rattle.ags_ports.specs.Port.{position_of, register_at};
ghost use Rattle.ags_run.specs.Playing.{PlayedActs, InPart};

use crate::players::Player;
use crate::shown_lines::{cell_line, output_line, reg_line};
use crate::whole_lines::whole_line;
use ags_core::Core;
use ags_deda::Panel;
use ags_outside::{SendError, Sink, send};
use ags_ports::Machine;
use ags_word::Word;
use arrayvec::ArrayVec;

/// The panel's line, without its line feed.
fn deda_line(panel: &Panel) -> ArrayVec<u8, 17>
    ensures text { (happenings : List Happening) → StandsFor panel.now happenings → result.items ≡ deda_text happenings }
    ensures most { length result.items ≤ 17 }
{
    let display = panel.text();
    let mut line: ArrayVec<u8, 17> = ArrayVec::new();
    let _ = line.try_extend_from_slice(b"DEDA |");
    let _ = line.try_extend_from_slice(&display);
    let _ = line.try_push(b'|');
    line
}

/// The word of the output register at an address, and 0 where there is none.
pub fn output_at(machine: &Machine, core: &Core, address: u16) -> Word
    requires { length core.now.outputs ≡ length machine.now.ports.outputs }
    ensures { result ≡ register_at core.now.outputs (position_of machine.now.ports.outputs address) }
{
    match machine.ports.find_output(address) {
        Some(position) => core.output(position),
        None => Word::ZERO,
    }
}

/// Sends a line with its line feed, as one piece.
fn send_line<K: Sink>(out: &mut K, line: &[u8]) -> Result<(), SendError>
    requires { length line.now ≤ 34 }
    ensures sent { OnOk result (K.told out.new ≡ appended (K.told out.old) (line.now ++ codes "\n")) }
    ensures front { OnErr result (WroteFront (K.told out.old) (K.told out.new) (line.now ++ codes "\n")) }
    ensures faults { HasCause (K.faults out.old) (K.faults out.new) (is_write_fault result) }
{
    send(out, whole_line(line).as_slice())
}

impl<'a> Player<'a> {
    /// Shows the processor's registers.
    pub(crate) fn show_reg<K: Sink>(&self, out: &mut K) -> Result<(), SendError>
        ensures shown { OnOk result (PlayedActs (act.ShowsReg ∷ []) (K.told out.old) (K.told out.new) self.now self.now None) }
        ensures part { OnErr result (InPart (act.ShowsReg ∷ []) (K.told out.old) (K.told out.new) self.now) }
        ensures faults { HasCause (K.faults out.old) (K.faults out.new) (is_write_fault result) }
    {
        send_line(out, &reg_line(&self.bench.core))
    }

    /// Shows the cell at an address.
    pub(crate) fn show_cell<K: Sink>(&self, address: u16, out: &mut K) -> Result<(), SendError>
        requires { address < 4096 }
        ensures shown { OnOk result (PlayedActs (act.ShowsCell address ∷ []) (K.told out.old) (K.told out.new) self.now self.now None) }
        ensures part { OnErr result (InPart (act.ShowsCell address ∷ []) (K.told out.old) (K.told out.new) self.now) }
        ensures faults { HasCause (K.faults out.old) (K.faults out.new) (is_write_fault result) }
    {
        send_line(out, &cell_line(address, self.bench.core.cell(address)))
    }

    /// Shows the output register at an address.
    pub(crate) fn show_out<K: Sink>(&self, address: u16, out: &mut K) -> Result<(), SendError>
        requires { address < 4096 }
        ensures shown { OnOk result (PlayedActs (act.ShowsOut address ∷ []) (K.told out.old) (K.told out.new) self.now self.now None) }
        ensures part { OnErr result (InPart (act.ShowsOut address ∷ []) (K.told out.old) (K.told out.new) self.now) }
        ensures faults { HasCause (K.faults out.old) (K.faults out.new) (is_write_fault result) }
    {
        send_line(
            out,
            &output_line(address, output_at(self.machine, &self.bench.core, address)),
        )
    }

    /// Shows the panel's display.
    pub(crate) fn show_deda<K: Sink>(&self, out: &mut K) -> Result<(), SendError>
        ensures shown { OnOk result (PlayedActs (act.ShowsDeda ∷ []) (K.told out.old) (K.told out.new) self.now self.now None) }
        ensures part { OnErr result (InPart (act.ShowsDeda ∷ []) (K.told out.old) (K.told out.new) self.now) }
        ensures faults { HasCause (K.faults out.old) (K.faults out.new) (is_write_fault result) }
    {
        send_line(out, deda_line(&self.bench.listener.panel).as_slice())
    }
}
