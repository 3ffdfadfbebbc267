//! The bench before the first act.

ghost use Rattle.std.specs.Prelude.{◌≡◌, List, false, None, IfOk, IfErr};
ghost use Rattle.ags_drive.specs.Bench.{start_bench};
ghost use Rattle.ags_certtype.specs.Cert.{certificate_of};
ghost use Rattle.ags_core.specs.Core.{start_state};
ghost use Rattle.ags_device.specs.Record.{DeviceRecord};
ghost use Rattle.ags_play.specs.Guard.{IsFirstOutside};
ghost use Rattle.ags_drive.specs.Drive.{is_drive_fault};
ghost use Rattle.ags_drive.specs.Standing.{IsBenchOf, bench_of};
ghost use Rattle.ags_drive.specs.Starting.{IsUnbegun};

use crate::benches::Bench;
use crate::drive_error::DriveError;
use crate::listeners::Listener;
use ags_certtype::Cert;
use ags_core::Core;
use ags_image::Image;
use ags_ports::Machine;
use ags_run::find_outside;
use std::alloc::Global;

/// The bench with a machine on it, before the first act.
fn bench_with(alloc: Global, core: Core) -> Bench
    ensures core { result.core ≡ core }
    ensures carry { result.carry ≡ 0 }
    ensures steps { result.listener.steps ≡ 0 }
    ensures puts { result.puts ≡ 0 }
{
    Bench {
        core,
        listener: Listener {
            given: Vec::new(alloc),
            starved: false,
            steps: 0,
        },
        carry: 0,
        puts: 0,
    }
}

/// The bench before the first act, at the certificate's start, which must be one that it declares.
pub(crate) fn begin(
    alloc: Global,
    machine: &Machine,
    image: &Image,
    cert: &Cert,
) -> Result<Bench, DriveError>
    ensures fitted { IfOk result (IsBenchOf machine.now) }
    ensures stands { IfOk result (λ bench. (devices : List DeviceRecord) → bench_of bench devices ≡ start_bench machine.now image.now (certificate_of cert.now) devices) }
    ensures none { IfOk result (λ bench. (bench.listener.steps ≡ 0) × (bench.puts ≡ 0)) }
    ensures inside { IfOk result (λ _. IsFirstOutside machine.now image.now (certificate_of cert.now) (start_state machine.now image.now cert.now.start) None) }
    ensures outside { IfErr result (IsUnbegun machine.now image.now (certificate_of cert.now)) }
    ensures no_fault { is_drive_fault result ≡ false }
{
    let Ok(core) = Core::new(alloc, machine, image, cert.start()) else {
        return Err(DriveError::NoMemory);
    };
    match find_outside(machine, image, cert, &core) {
        Some(outside) => Err(DriveError::StartOutside(outside)),
        None => Ok(bench_with(alloc, core)),
    }
}
