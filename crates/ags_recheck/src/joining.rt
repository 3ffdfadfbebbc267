//! What comes of some cases, and of one more.

ghost use Rattle.std.specs.Prelude.{◌≡◌, ◌<◌, ◌≤◌, ◌^◌, IfOk};
ghost use Rattle.ags_recheck.specs.Joined.{joined};

use ags_check::RowFault;

/// The counts together, or the first fault.
pub(crate) fn join(
    before: Result<u64, RowFault>,
    one: Result<u64, RowFault>,
) -> Result<u64, RowFault>
    requires few { IfOk before (λ count. count < 2 ^ 32) }
    requires once { IfOk one (λ more. more ≡ 1) }
    ensures { result ≡ joined before one }
{
    match before {
        Ok(count) => match one {
            Ok(more) => Ok(count + more),
            Err(fault) => Err(fault),
        },
        Err(fault) => Err(fault),
    }
}
