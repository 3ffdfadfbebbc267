//! The first fault of a file as a refusal of a program's own.

ghost use Rattle.std.specs.Prelude.{◌≡◌};
ghost use Rattle.ags_files.specs.Reading.{with_refusal};

use ags_plan::Unloaded;

/// A program's refusals, of which each fault of an `E` is one.
pub trait RefusesBy<E> {
    /// The refusal of a fault.
    ghost refusal_of: { E → Self };

    /// The refusal of a fault.
    fn refusal_of(fault: E) -> Self
        ensures { result ≡ refusal_of fault };
}

/// The answer of a loader, with its first fault as a refusal of a program's.
pub fn refused_by<'a, T, E, R: RefusesBy<E>>(
    loaded: Result<T, Unloaded<'a, E>>,
) -> Result<T, Unloaded<'a, R>>
    ensures { result ≡ with_refusal R.refusal_of loaded.entry }
{
    match loaded {
        Ok(value) => Ok(value),
        Err(Unloaded::Refused(fault)) => Err(Unloaded::Refused(R::refusal_of(fault))),
        Err(Unloaded::Absent(name)) => Err(Unloaded::Absent(name)),
        Err(Unloaded::TooLong { name, limit }) => Err(Unloaded::TooLong { name, limit }),
        Err(Unloaded::ReadFault) => Err(Unloaded::ReadFault),
        Err(Unloaded::NoMemory) => Err(Unloaded::NoMemory),
    }
}
