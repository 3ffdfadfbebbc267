//! The devices that stand at the machine's registers.

ghost use Rattle.std.specs.Prelude.{◌≡◌, IfOk};
ghost use Rattle.ags_benchprocess.specs.Devices.{pad_record, recorder_record, sensor_record};

use ags_device::{Pad, Recorder, Sensor};
use ags_word::Word;
use std::alloc::{AllocError, Global};

/// The sensor: it feeds the word 001750, which is 1000, into the register at 2001, a hundred times.
pub(crate) fn sensor() -> Sensor
    ensures { result ≡ sensor_record }
{
    match Word::of(0o001750) {
        Some(first) => Sensor::new(0o2001, first, Word::ZERO, 100),
        None => unreachable!(),
    }
}

/// The pad: it feeds a readout of the address 047 into the register at 2200, digit by digit, and hears the one at 6200.
pub(crate) fn pad(alloc: Global) -> Result<Pad, AllocError>
    ensures { IfOk result (λ pad. pad ≡ pad_record) }
{
    let digits = vec![in alloc; 0u8, 4, 7, 15, 15, 15, 15, 15, 15]?;
    match Pad::new(alloc, 0o2200, 0o6200, digits) {
        Some(pad) => Ok(pad),
        None => unreachable!(),
    }
}

/// The recorder: it hears the output register at 6001.
pub(crate) fn recorder(alloc: Global) -> Recorder
    ensures { result ≡ recorder_record }
{
    Recorder::new(alloc, 0o6001)
}
