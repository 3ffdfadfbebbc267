//! What the first fault of a list is: laws of its definition, over every list and every kind of fault.

ghost use Rattle.std.specs.Prelude.{◌≡◌, ℕ, List, Option, Some, None, []};
ghost use Rattle.ags_text.specs.Fault.{first_fault, IsFirstFault, IsFaultless};

/// The first fault is the fault of some element before which none is faulty, with its number.
pub fn first_fault_is_first<X, F>()
    ensures { (fault : List X → X → Option F) (xs : List X) (found : ℕ × F)
        → first_fault fault [] xs ≡ Some found → IsFirstFault fault [] xs found }
{}

/// Where there is no first fault, no element is faulty.
pub fn no_fault_is_faultless<X, F>()
    ensures { (fault : List X → X → Option F) (xs : List X) → first_fault fault [] xs ≡ None → IsFaultless fault [] xs }
{}
