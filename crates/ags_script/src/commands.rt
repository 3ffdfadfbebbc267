//! A script's commands.

use ags_deda::Key;
use ags_word::Word;

/// What a script asks for. A line of keys asks for one press after the other.
#[derive(Clone, Copy)]
pub enum Command {
    /// The machine begins at this location.
    Start(u16),
    /// An erasable cell begins with a word.
    Cell {
        /// The cell's address.
        address: u16,
        /// The word.
        word: Word,
    },
    /// An input register begins with a word.
    Port {
        /// The register's address.
        address: u16,
        /// The word.
        word: Word,
    },
    /// So many steps; none at 0.
    Step(u32),
    /// One pulse of the timer.
    Pulse,
    /// A word is put into an input register.
    Set {
        /// The register's address.
        address: u16,
        /// The word.
        word: Word,
    },
    /// A key of the panel is pressed.
    Press(Key),
    /// A digit that the panel has to send is put into its register.
    Feed,
    /// So many cycles; none at 0.
    Cycle(u32),
    /// The processor's registers are shown.
    ShowReg,
    /// The cell at an address is shown.
    ShowCell(u16),
    /// The output register at an address is shown.
    ShowOut(u16),
    /// The panel's display is shown.
    ShowDeda,
}
