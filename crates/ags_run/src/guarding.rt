//! The first thing of a start that a certificate doesn't declare.

ghost use Rattle.std.specs.Prelude.{◌≡◌, ◌<◌, ◌↔◌, ℕ, IsTrue, IfSome, None, length, option_map, slice_index_or};
ghost use Rattle.ags_certtype.specs.Cert.{certificate_of};
ghost use Rattle.ags_domain.specs.Value.{value_meaning};
ghost use Rattle.ags_play.specs.Guard.{AreInputsInside, IsInputInside, IsFirstOutside, IsFound};
ghost use Rattle.ags_ports.specs.Port.{held_port};
ghost use Rattle.ags_ports.specs.State.{cell};
ghost use Rattle.ags_safe.specs.InRow.{AreInputsHeld};
ghost use Rattle.ags_safe.specs.Start.{IsFirstWord, IsStartWord};
ghost use Rattle.ags_run.specs.Play.{outside_of};
ghost use Rattle.ags_run.specs.Playing.{guard_in};

use crate::outside::Outside;
use crate::players::Player;
use ags_certtype::Cert;
use ags_core::Core;
use ags_domain::{Domain, Value};
use ags_image::Image;
use ags_ports::Machine;
use ags_word::{ERASABLE, Word};

/// Whether a cell may hold a word at the start, by the image's entry and what is stated of the start.
fn is_first_word(entry: Option<Word>, stated: Option<Value>, word: Word) -> bool
    ensures { IsTrue result ↔ IsFirstWord value_meaning entry stated word }
{
    match entry {
        Some(assembled) => word.number() == assembled.number(),
        None => match stated {
            Some(value) => value.holds(word),
            None => word.number() == 0,
        },
    }
}

/// Whether an erasable cell begins with a word that it may hold at the start.
fn is_cell_inside(image: &Image, cert: &Cert, core: &Core, address: u16) -> bool
    requires { address < 2048 }
    ensures { IsTrue result ↔ IsStartWord value_meaning image.now (certificate_of cert.now) address (cell core.now address) }
{
    is_first_word(image.get(address), cert.init(address), core.cell(address))
}

/// The address of the first erasable cell that is outside.
fn find_cell(image: &Image, cert: &Cert, core: &Core) -> Option<u16>
    ensures erasable { IfSome result (λ address. address < 2048) }
    ensures earlier { IfSome result (λ address. (earlier : ℕ) → earlier < address
        → IsStartWord value_meaning image.now (certificate_of cert.now) earlier (cell core.now earlier)) }
    ensures outside { IfSome result (λ address. ¬ IsStartWord value_meaning image.now (certificate_of cert.now) address (cell core.now address)) }
    ensures none { result ≡ None → (address : ℕ) → address < 2048
        → IsStartWord value_meaning image.now (certificate_of cert.now) address (cell core.now address) }
{
    for address in 0..ERASABLE {
        if !is_cell_inside(image, cert, core, address) {
            return Some(address);
        }
    }
    None
}

/// Whether the input register at a position begins with a word of its limit.
fn is_input_inside(machine: &Machine, cert: &Cert, core: &Core, position: usize) -> bool
    requires inside { position < length machine.now.ports.inputs }
    requires registers { length core.now.inputs ≡ length machine.now.ports.inputs }
    ensures { IsTrue result
        ↔ IsInputInside (certificate_of cert.now) core.now ((slice_index_or machine.now.ports.inputs position (held_port 0)).address) position }
{
    let address = machine.ports.inputs()[position].address;
    cert.limits().input(address).holds(core.input(position))
}

/// The position in the machine's table of the first input register that is outside.
fn find_input(machine: &Machine, cert: &Cert, core: &Core) -> Option<usize>
    requires { length core.now.inputs ≡ length machine.now.ports.inputs }
    ensures inside { IfSome result (λ position. position < length machine.now.ports.inputs) }
    ensures earlier { IfSome result (AreInputsInside machine.now (certificate_of cert.now) core.now) }
    ensures outside { IfSome result (λ position.
        ¬ IsInputInside (certificate_of cert.now) core.now ((slice_index_or machine.now.ports.inputs position (held_port 0)).address) position) }
    ensures none { result ≡ None → AreInputsHeld value_meaning machine.now (certificate_of cert.now).limits core.now }
{
    for position in 0..machine.ports.inputs().len() {
        if !is_input_inside(machine, cert, core, position) {
            return Some(position);
        }
    }
    None
}

/// The first cell or input register that is outside, where the location isn't.
fn find_word(machine: &Machine, image: &Image, cert: &Cert, core: &Core) -> Option<Outside>
    requires inputs { length core.now.inputs ≡ length machine.now.ports.inputs }
    requires location { core.now.location ≡ cert.now.start }
    ensures { IsFirstOutside machine.now image.now (certificate_of cert.now) core.now (option_map outside_of result) }
{
    if let Some(address) = find_cell(image, cert, core) {
        let word = core.cell(address);
        return Some(Outside::Cell { address, word });
    }
    let Some(position) = find_input(machine, cert, core) else {
        return None;
    };
    let address = machine.ports.inputs()[position].address;
    let word = core.input(position);
    Some(Outside::Port { address, word })
}

/// What of a state is outside first: what a certificate doesn't declare of a start.
pub fn find_outside(machine: &Machine, image: &Image, cert: &Cert, core: &Core) -> Option<Outside>
    requires { length core.now.inputs ≡ length machine.now.ports.inputs }
    ensures { IsFirstOutside machine.now image.now (certificate_of cert.now) core.now (option_map outside_of result) }
{
    let script = core.location();
    let start = cert.start();
    if script != start {
        return Some(Outside::Place {
            script,
            cert: start,
        });
    }
    find_word(machine, image, cert, core)
}

impl<'a> Player<'a> {
    /// What of the state the guard finds outside first, and without a guard nothing.
    pub(crate) fn find_outside(&self, image: &Image) -> Option<Outside>
        ensures { IsFound self.now.machine.now image.now (guard_in self.now) self.now.bench.core (option_map outside_of result) }
    {
        match self.guard {
            Some(cert) => find_outside(self.machine, image, cert, &self.bench.core),
            None => None,
        }
    }
}
