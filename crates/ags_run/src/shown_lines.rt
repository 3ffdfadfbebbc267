//! The lines that show the machine.

ghost use Rattle.std.specs.Prelude.{◌≡◌, ◌<◌, [], ◌∷◌};
ghost use Rattle.ags_ports.specs.declared.events.Phase.{Phase};
ghost use Rattle.ags_play.specs.Shown.{indicator_text, phase_text, reg_text, cell_text, output_text};

use ags_core::Core;
use ags_ports::Phase;
use ags_text::octal4;
use ags_word::Word;

/// The digit of the indicator.
fn indicator_digit(indicator: bool) -> u8
    ensures { result ∷ [] ≡ indicator_text indicator }
{
    if indicator { b'1' } else { b'0' }
}

/// The letter of the phase.
fn phase_letter(phase: Phase) -> u8
    ensures { result ∷ [] ≡ phase_text phase }
{
    match phase {
        Phase::Running => b'R',
        Phase::Waiting => b'W',
        Phase::Halted => b'H',
    }
}

/// The line of the registers, without its line feed.
#[tactic(auto, unfolding(ags_play::specs::Shown::reg_text, ags_text::specs::Numeral::numeral))]
pub fn reg_line(core: &Core) -> [u8; 34]
    ensures { result ≡ reg_text core.now }
{
    let [a6, a5, a4, a3, a2, a1] = core.a().octal6();
    let [q6, q5, q4, q3, q2, q1] = core.q().octal6();
    let [p4, p3, p2, p1] = octal4(u32::from(core.location()));
    let index = b'0' + core.index();
    let indicator = indicator_digit(core.indicator());
    let phase = phase_letter(core.phase());
    [
        b'A', b' ', a6, a5, a4, a3, a2, a1, b' ', b'Q', b' ', q6, q5, q4, q3, q2, q1, b' ', b'X',
        b' ', index, b' ', b'V', b' ', indicator, b' ', b'P', b' ', p4, p3, p2, p1, b' ', phase,
    ]
}

/// The line of a cell, without its line feed.
#[tactic(auto, unfolding(ags_play::specs::Shown::cell_text, ags_text::specs::Numeral::numeral))]
pub fn cell_line(address: u16, word: Word) -> [u8; 16]
    requires { address < 4096 }
    ensures { result ≡ cell_text address word }
{
    let [p4, p3, p2, p1] = octal4(u32::from(address));
    let [w6, w5, w4, w3, w2, w1] = word.octal6();
    [
        b'C', b'E', b'L', b'L', b' ', p4, p3, p2, p1, b' ', w6, w5, w4, w3, w2, w1,
    ]
}

/// The line of an output register, without its line feed.
#[tactic(auto, unfolding(ags_play::specs::Shown::output_text, ags_text::specs::Numeral::numeral))]
pub fn output_line(address: u16, word: Word) -> [u8; 15]
    requires { address < 4096 }
    ensures { result ≡ output_text address word }
{
    let [p4, p3, p2, p1] = octal4(u32::from(address));
    let [w6, w5, w4, w3, w2, w1] = word.octal6();
    [
        b'O', b'U', b'T', b' ', p4, p3, p2, p1, b' ', w6, w5, w4, w3, w2, w1,
    ]
}
