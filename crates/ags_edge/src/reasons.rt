//! Why the outside failed.

ghost use Rattle.std.specs.Prelude.{◌≡◌};
ghost use Rattle.std.specs.IoError.{error_kind};
ghost use Rattle.std.specs.Option.{option_map};
ghost use Rattle.std.specs.Result.{result_err};

use std::io::{self, ErrorKind};

/// Why a call failed, where it did.
pub(crate) fn reason_of<T>(done: &io::Result<T>) -> Option<ErrorKind>
    ensures { result ≡ option_map error_kind (result_err done.now) }
{
    match done {
        Ok(_) => None,
        Err(error) => Some(error.kind()),
    }
}
