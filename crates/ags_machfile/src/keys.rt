//! The keys of a machine file.

use ags_isa::Order;
use std::fmt;

/// A key of a machine file (docs/MACHINE.md, Machine files).
#[derive(Clone, Copy)]
pub enum Key {
    /// The table of codes.
    Codes,
    /// The table of times.
    Times,
    /// The input registers.
    Input,
    /// The output registers.
    Output,
    /// The address that the panel's digits go to.
    DedaIn,
    /// The address that the panel is shown.
    DedaOut,
    /// An order in the table of codes.
    Code(Order),
    /// An order in the table of times.
    Time(Order),
    /// An entry of the input registers, by its position from 0.
    InputAt(u32),
    /// An entry of the output registers, by its position from 0.
    OutputAt(u32),
}

/// Prints the key as it stands in the line of a machine file's fault.
impl fmt::Display for Key {
    ghost use Rattle.std.specs.Prelude.{Some};
    ghost use Rattle.ags_machfile.specs.FaultText.{key_text};

    ghost output = { λ key. Some (key_text key) };

    fn fmt<W: fmt::Write>(&self, f: &mut fmt::Formatter<W>) -> fmt::Result {
        match self {
            Key::Codes => f.write_str("codes"),
            Key::Times => f.write_str("times"),
            Key::Input => f.write_str("input"),
            Key::Output => f.write_str("output"),
            Key::DedaIn => f.write_str("deda_in"),
            Key::DedaOut => f.write_str("deda_out"),
            Key::Code(order) => {
                let name = order.name();
                write!(f, "codes.{name}")
            }
            Key::Time(order) => {
                let name = order.name();
                write!(f, "times.{name}")
            }
            Key::InputAt(position) => write!(f, "input.{position}"),
            Key::OutputAt(position) => write!(f, "output.{position}"),
        }
    }
}
