//! The play of a script.

ghost use Rattle.std.specs.Prelude.{◌≡◌, ◌<◌, ◌^◌, ℕ, All, List, Option, Some, length, option_map, IfOk, IfErr, IsErrOf};
ghost use Rattle.ags_domain.specs.Value.{value_meaning};
ghost use Rattle.ags_domain.specs.declared.values.Value.{Value};
ghost use Rattle.ags_outside.specs.Count.{HasCause, Rose};
ghost use Rattle.ags_play.specs.Begun.{IsRunOf};
ghost use Rattle.ags_play.specs.Bench.{begun_state};
ghost use Rattle.ags_play.specs.Cut.{IsSafeWhereCut};
ghost use Rattle.ags_play.specs.Guard as outside_start;
ghost use Rattle.ags_play.specs.Played.{IsPlayOf, Met, OutsideStart};
ghost use Rattle.ags_ports.specs.declared.events.Event.{Event};
ghost use Rattle.ags_ports.specs.declared.machines.Machine.{Machine};
ghost use Rattle.ags_ports.specs.Machine.{IsMachine};
ghost use Rattle.ags_safe.specs.Certificate.{Certificate};
ghost use Rattle.ags_safe.specs.Safe.{Safe};
ghost use Rattle.ags_script.specs.Script.{IsReadFor};
ghost use Rattle.ags_script.specs.Suiting.{NamesLocation, Suits};
ghost use Rattle.ags_run.specs.Play.{guard_of, IsUnplayed, PlayedWhole, is_play_fault};
ghost use Rattle.ags_run.specs.Playing.{Begins, end_of};

use crate::benches::Bench;
use crate::play_error::PlayError;
use crate::players::{Player, StoppedWord};
use crate::starting::usual_location;
use ags_certtype::Cert;
use ags_image::Image;
use ags_outside::{SendError, Sink};
use ags_ports::Machine;
use ags_ports::laws::machine_is_made_of_tables;
use ags_script::Script;
use ags_script::laws::scripts_suit_their_machine;
use std::alloc::{AllocError, Global};

/// How many events a script made.
#[derive(Clone, Copy)]
pub struct Played {
    /// The steps.
    pub steps: u64,
    /// The words that were put into input registers.
    pub puts: u64,
}

/// Does nothing: its contract tells the proofs what is so of a machine, of a script that was read for it, and of each play of the
/// script under a certificate.
fn plays_are_sound(machine: &Machine, image: &Image, script: &Script, guard: Option<&Cert>)
    requires { IsReadFor machine.now script.now }
    ensures machine { IsMachine machine.now }
    ensures suits { Suits machine.now script.now }
    ensures commands { length script.now < 2 ^ 63 }
    ensures declared { (cert : Certificate Value) (events : List Event) (text : List ℕ) (met : Met)
        → guard_of (option_map (λ cert. cert.now) guard.entry) ≡ Some cert → IsPlayOf machine.now image.now (Some cert) script.now events text met
        → ((outside : outside_start.Outside) → met ≡ OutsideStart outside → ⊥)
        → IsRunOf machine.now image.now cert (begun_state machine.now image.now (Some cert) script.now) events }
    ensures safe { (cert : Certificate Value) (events : List Event) (text : List ℕ) (met : Met)
        → guard_of (option_map (λ cert. cert.now) guard.entry) ≡ Some cert → IsPlayOf machine.now image.now (Some cert) script.now events text met
        → ((outside : outside_start.Outside) → met ≡ OutsideStart outside → ⊥) → Safe value_meaning machine.now image.now cert
        → IsSafeWhereCut machine.now image.now cert script.now }
{
    machine_is_made_of_tables(machine);
    scripts_suit_their_machine();
    // each is read for what its type promises
    let _image = image.get(0);
    let _count = script.len();
    let _location = usual_location(guard);
}

/// What a play comes to whose commands met this: how many events the bench counted, or why it wasn't played to its end.
fn end_of(bench: &Bench, met: Result<Option<StoppedWord>, SendError>) -> Result<Played, PlayError>
    ensures { result ≡ end_of bench.now met }
{
    match met {
        Ok(None) => Ok(Played {
            steps: bench.listener.steps,
            puts: bench.puts,
        }),
        Ok(Some(stopped)) => Err(PlayError::InputRange {
            address: stopped.address,
            word: stopped.word,
        }),
        Err(SendError::WriteFault) => Err(PlayError::WriteFault),
        Err(SendError::NoMemory) => Err(PlayError::NoMemory),
    }
}

impl<'a> Player<'a> {
    /// Plays a script that it begins, where nothing is outside of its start.
    fn play_from_start<K: Sink>(
        &mut self,
        image: &Image,
        script: &Script,
        out: &mut K,
    ) -> Result<Played, PlayError>
        requires { All NamesLocation script.now }
        ensures played { (machine : Machine) (guard : Option (Certificate Value)) → Begins machine image.now guard script.now self.old → IsMachine machine
            → Suits machine script.now → length script.now < 2 ^ 63 → IfOk result (PlayedWhole machine image.now guard script.now (K.told out.old) (K.told out.new)) }
        ensures unplayed { (machine : Machine) (guard : Option (Certificate Value)) → Begins machine image.now guard script.now self.old
            → IfErr result (IsUnplayed machine image.now guard script.now (K.told out.old) (K.told out.new)) }
        ensures faults { HasCause (K.faults out.old) (K.faults out.new) (is_play_fault result) }
    {
        match self.find_outside(image) {
            Some(outside) => Err(PlayError::StartOutside(outside)),
            None => {
                let met = self.play_commands(script, out);
                end_of(&self.bench, met)
            }
        }
    }
}

/// Plays a script that was read for the machine (docs/SCRIPT.md), on the machine that starts with an image. What it shows is
/// printed as soon as it is shown, a line each. Under a certificate the start, and each word before it is put, must be ones that
/// it declares.
pub fn play<K: Sink>(
    alloc: Global,
    machine: &Machine,
    image: &Image,
    script: &Script,
    guard: Option<&Cert>,
    out: &mut K,
) -> Result<Played, PlayError>
    requires { IsReadFor machine.now script.now }
    // The script has one play over the image, under the certificate or none: this is how far it came, with its text.
    ensures played { IfOk result (PlayedWhole machine.now image.now (guard_of (option_map (λ cert. cert.now) guard.entry)) script.now (K.told out.old) (K.told out.new)) }
    ensures unplayed { IfErr result (IsUnplayed machine.now image.now (guard_of (option_map (λ cert. cert.now) guard.entry)) script.now (K.told out.old) (K.told out.new)) }
    // Under a certificate, where no start outside is met, the events of the play are a run from a start that it declares, with each
    // word that is put declared.
    ensures declared { (cert : Certificate Value) (events : List Event) (text : List ℕ) (met : Met)
        → guard_of (option_map (λ cert. cert.now) guard.entry) ≡ Some cert → IsPlayOf machine.now image.now (Some cert) script.now events text met
        → ((outside : outside_start.Outside) → met ≡ OutsideStart outside → ⊥)
        → IsRunOf machine.now image.now cert (begun_state machine.now image.now (Some cert) script.now) events }
    // Where the certificate is safe, each state that such a play comes to is, wherever it is cut: so is each that is shown.
    ensures safe { (cert : Certificate Value) (events : List Event) (text : List ℕ) (met : Met)
        → guard_of (option_map (λ cert. cert.now) guard.entry) ≡ Some cert → IsPlayOf machine.now image.now (Some cert) script.now events text met
        → ((outside : outside_start.Outside) → met ≡ OutsideStart outside → ⊥) → Safe value_meaning machine.now image.now cert
        → IsSafeWhereCut machine.now image.now cert script.now }
    ensures write_fault { IsErrOf result PlayError.WriteFault → Rose (K.faults out.old) (K.faults out.new) }
    ensures faults { HasCause (K.faults out.old) (K.faults out.new) (is_play_fault result) }
{
    plays_are_sound(machine, image, script, guard);
    match Player::begin(alloc, machine, image, script, guard) {
        Ok(mut player) => player.play_from_start(image, script, out),
        Err(AllocError) => Err(PlayError::NoMemory),
    }
}
