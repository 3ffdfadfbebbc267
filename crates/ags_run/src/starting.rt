//! The player before the first act.

ghost use Rattle.std.specs.Prelude.{◌≡◌, ◌<◌, false, All, option_map, IfOk, []};
ghost use Rattle.ags_deda.specs.Standing.{StandsFor};
ghost use Rattle.ags_play.specs.Bench.{with_setting, with_settings, usual_location, begun_state};
ghost use Rattle.ags_ports.specs.declared.machines.Machine.{Machine};
ghost use Rattle.ags_ports.specs.State.{State, IsState};
ghost use Rattle.ags_script.specs.Command.{lacks_port};
ghost use Rattle.ags_script.specs.Suiting.{NamesLocation, Suits};
ghost use Rattle.ags_run.specs.Hearing.{listening};
ghost use Rattle.ags_run.specs.Play.{guard_of};
ghost use Rattle.ags_run.specs.Playing.{Begins};

use crate::benches::Bench;
use crate::listeners::Listener;
use crate::players::Player;
use ags_certtype::Cert;
use ags_core::Core;
use ags_deda::Panel;
use ags_image::Image;
use ags_ports::Machine;
use ags_script::{Command, Script};
use std::alloc::{AllocError, Global};

/// The location that a script without START begins at where there is no certificate, 4000 octal.
const USUAL_LOCATION: u16 = 0o4000;

/// The location that a script without START begins at.
pub(crate) fn usual_location(guard: Option<&Cert>) -> u16
    ensures location { result ≡ usual_location (guard_of (option_map (λ cert. cert.now) guard.entry)) }
    ensures below { result < 4096 }
{
    match guard {
        Some(cert) => cert.start(),
        None => USUAL_LOCATION,
    }
}

/// The location once a command was set, where it was this one before.
fn location_after(command: Command, location: u16) -> u16
    requires names { NamesLocation command }
    requires below { location < 4096 }
    ensures location { (machine : Machine) (s : State) → s.location ≡ location → (with_setting machine s command).location ≡ result }
    ensures below { result < 4096 }
{
    match command {
        Command::Start(address) => address,
        _ => location,
    }
}

/// The location that a script begins at, where this is the usual one.
fn start_location(script: &Script, usual: u16) -> u16
    requires names { All NamesLocation script.now }
    requires usual { usual < 4096 }
    ensures location { (machine : Machine) (s : State) → s.location ≡ usual → (with_settings machine s script.now).location ≡ result }
    ensures below { result < 4096 }
{
    let mut location = usual;
    for position in 0..script.len() {
        location = location_after(script.nth(position), location);
    }
    location
}

/// Sets what a command sets at the start, save the location.
fn set_by(machine: &Machine, core: &mut Core, command: Command)
    requires state { IsState machine.now core.old }
    requires location { NamesLocation command }
    requires port { lacks_port machine.now command ≡ false }
    ensures after { core.new ≡ record (with_setting machine.now core.old command) { location = core.old.location } }
    ensures state { IsState machine.now core.new }
{
    match command {
        Command::Cell { address, word } => core.set_cell(address, word),
        Command::Port { address, word } => {
            if let Some(position) = machine.ports.find_input(address) {
                core.set_input(position, word);
            }
        }
        _ => {}
    }
}

/// Sets what a script sets at the start, save the location.
fn set_all(machine: &Machine, core: &mut Core, script: &Script)
    requires state { IsState machine.now core.old }
    requires suits { Suits machine.now script.now }
    ensures after { core.new ≡ record (with_settings machine.now core.old script.now) { location = core.old.location } }
    ensures state { IsState machine.now core.new }
{
    for position in 0..script.len() {
        set_by(machine, core, script.nth(position));
    }
}

/// The machine before the first act.
fn begun_core(
    alloc: Global,
    machine: &Machine,
    image: &Image,
    script: &Script,
    guard: Option<&Cert>,
) -> Result<Core, AllocError>
    requires { Suits machine.now script.now }
    ensures begun { IfOk result (λ core. core ≡ begun_state machine.now image.now (guard_of (option_map (λ cert. cert.now) guard.entry)) script.now) }
    ensures state { IfOk result (IsState machine.now) }
{
    let start = start_location(script, usual_location(guard));
    let mut core = Core::new(alloc, machine, image, start)?;
    set_all(machine, &mut core, script);
    Ok(core)
}

/// The output register that the panel is connected to, where the machine has it.
fn listening(machine: &Machine) -> Option<u16>
    ensures { result ≡ listening machine.now }
{
    if machine.ports.find_output(machine.deda_out).is_some() {
        Some(machine.deda_out)
    } else {
        None
    }
}

/// The bench with a machine on it, before the first act.
fn bench_with(machine: &Machine, core: Core) -> Bench
    ensures core { result.core ≡ core }
    ensures stands { StandsFor result.listener.panel [] }
    ensures address { result.listener.address ≡ listening machine.now }
    ensures steps { result.listener.steps ≡ 0 }
    ensures carry { result.carry ≡ 0 }
    ensures puts { result.puts ≡ 0 }
{
    Bench {
        core,
        listener: Listener {
            panel: Panel::new(),
            address: listening(machine),
            steps: 0,
        },
        carry: 0,
        puts: 0,
    }
}

impl<'a> Player<'a> {
    /// The player before the first act.
    pub(crate) fn begin(
        alloc: Global,
        machine: &'a Machine,
        image: &Image,
        script: &Script,
        guard: Option<&'a Cert>,
    ) -> Result<Player<'a>, AllocError>
        requires { Suits machine.now script.now }
        ensures { IfOk result (Begins machine.now image.now (guard_of (option_map (λ cert. cert.now) guard.entry)) script.now) }
    {
        let core = begun_core(alloc, machine, image, script, guard)?;
        let bench = bench_with(machine, core);
        Ok(Player {
            machine,
            guard,
            bench,
        })
    }
}
