//! The certificate of all statements.

ghost use Rattle.std.specs.Prelude.{IfOk};
ghost use Rattle.ags_certread.specs.Gathering.{IsCertOfGathering, IsFinished, gathering_of};

use crate::gatherer::Gatherer;
use crate::limits::limits_of;
use ags_certtype::Cert;
use std::alloc::{AllocError, Global};

/// The certificate of what is gathered. The one error is want of memory.
pub(crate) fn certificate_of(alloc: Global, gatherer: Gatherer) -> Result<Cert, AllocError>
    requires { IsFinished (gathering_of gatherer) }
    ensures { IfOk result (IsCertOfGathering (gathering_of gatherer)) }
{
    let limits = limits_of(alloc, &gatherer)?;
    Cert::made_of(alloc, gatherer.into_parts(limits))
}
