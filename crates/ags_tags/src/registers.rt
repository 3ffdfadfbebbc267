//! Which addresses a line may name.

ghost use Rattle.std.specs.Prelude.{◌≡◌, ◌<◌, true};
ghost use Rattle.ags_tags.specs.Text.{may_stand};

use crate::statements::Table;
use ags_ports::{Ports, has_register};
use ags_word::LOCATIONS;

/// Whether a line may name an address: that of a cell, or of a register of the machine.
pub(crate) fn may_stand(ports: &Ports, table: Table, address: u16) -> bool
    ensures same { result ≡ may_stand ports.now table address }
    ensures below { result ≡ true → address < 4096 }
{
    match table {
        Table::Cell => address < LOCATIONS,
        Table::In => has_register(ports.inputs(), address),
        Table::Out => has_register(ports.outputs(), address),
    }
}
