//! Why the system couldn't read a file, or write the output, in words.

ghost use Rattle.std.specs.Prelude.{◌≡◌};
ghost use Rattle.ags_advice.specs.Reason as words;

use std::io::ErrorKind;

/// Why a file couldn't be read.
pub(crate) fn why_unread(reason: Option<ErrorKind>) -> &'static str
    ensures { result.now ≡ words.why_unread reason }
{
    match reason {
        Some(ErrorKind::IsADirectory) => "it is a folder, and no file",
        Some(ErrorKind::PermissionDenied) => "there is no permission to read it",
        Some(ErrorKind::NotADirectory) => "a part of its path is no folder",
        _ => "it can't be read",
    }
}

/// Why the output couldn't be written.
pub(crate) fn why_unwritten(reason: Option<ErrorKind>) -> &'static str
    ensures { result.now ≡ words.why_unwritten reason }
{
    match reason {
        Some(ErrorKind::StorageFull) => "the output can't be written: its device is full",
        _ => "the output can't be written",
    }
}
