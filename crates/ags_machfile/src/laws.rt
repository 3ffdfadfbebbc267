//! What the definition of a machine file means. Each law is what a function that does nothing ensures, so that it is proved
//! with the crate. Behind each clause is a lemma of `proofs/`; those that the crates above cite are listed at the heads of
//! its files.

ghost use Rattle.std.specs.Prelude.{◌≡◌, ◌≢◌, ◌↔◌, ℕ, Bool, List, [], Option, Some, None, Result, Ok, Err, IsUtf8};
ghost use Rattle.std.specs.Result.{result_err};
ghost use Rattle.toml.specs.Data.{Data, Members, as_table, no_members};
ghost use Rattle.toml.specs.Parse.{parse_document};
ghost use Rattle.ags_isa.specs.declared.orders.Order.{Order};
ghost use Rattle.ags_ports.specs.declared.machines.Machine.{Machine};
ghost use Rattle.ags_ports.specs.declared.registers.Port.{Port};
ghost use Rattle.ags_ports.specs.Machine.{IsMachine, standard_machine};
ghost use Rattle.ags_machfile.specs.declared.keys.Key.{Key};
ghost use Rattle.ags_machfile.specs.declared.keys.Key.TheVariants.{Codes};
ghost use Rattle.ags_machfile.specs.declared.mach_error.MachError.{MachError};
ghost use Rattle.ags_machfile.specs.declared.mach_error.MachError.TheVariants.{NotToml, MissingKey, BadValue, SameCode, NoMemory};
ghost use Rattle.ags_machfile.specs.declared.port_tables.Direction.{Direction};
ghost use Rattle.ags_machfile.specs.OrderTable.{all_numbers, code_entry, codes_in, order_numbers, shared_pair};
ghost use Rattle.ags_machfile.specs.PortTable.{port_with, ports_behind};
ghost use Rattle.ags_machfile.specs.MachineFile.{machine_in, machine_of};
ghost use Rattle.ags_machfile.specs.Rule.{AreNumbers, IsFirstFault, IsPair, IsFirstPair, ArePorts, IsFirstBadEntry, GivesMachine, part_faults, first_of};

/// A table gives numbers exactly where it gives each order its own, and these are they; it has a fault exactly where an
/// order has one, and it is that of the first in the alphabet.
pub fn table_gives_each_order_its_number()
    ensures numbers { (entry : Order → Result ℕ MachError) (numbers : List ℕ)
        → (all_numbers entry ≡ Ok numbers) ↔ AreNumbers entry numbers }
    ensures fault { (entry : Order → Result ℕ MachError) (fault : MachError)
        → (all_numbers entry ≡ Err fault) ↔ IsFirstFault entry fault }
{}

/// Orders are told to share a code exactly where they do and no pair that does has a lesser first order, or with that one a lesser
/// second; none are told exactly where no two orders share a code. So a file's codes are refused for a shared one exactly where its
/// table gives all orders their codes and that is the first pair.
pub fn shared_code_is_told_by_the_first_pair()
    ensures first { (table : List ℕ) (first second : Order) → (shared_pair table ≡ Some (first, second)) ↔ IsFirstPair table first second }
    ensures none { (table : List ℕ) → (shared_pair table ≡ None) ↔ ((order other : Order) → ¬ IsPair table order other) }
    ensures file { (value : Data) (first second : Order) → (codes_in (Some value) ≡ Err (SameCode first second))
        ↔ ((table : List ℕ) × (order_numbers Codes code_entry (as_table value) ≡ Ok table) × IsFirstPair table first second) }
{}

/// A wrong value of an entry is told before a missing address.
pub fn wrong_value_is_told_before_a_missing_address()
    ensures address { (which : Key) (once : Option Bool) → port_with which (Some None) once ≡ Err (BadValue which) }
    ensures once { (which : Key) (address : Option (Option ℕ)) → port_with which address None ≡ Err (BadValue which) }
    ensures missing { (which : Key) (once : Bool) → port_with which None (Some once) ≡ Err (MissingKey which) }
{}

/// An array gives registers exactly where each entry gives its own and no two have one address, and these are they; it has a
/// fault exactly where an entry has one, its own or the address of an earlier one, and all entries before it have registers.
pub fn array_gives_each_entry_its_register()
    ensures ports { (direction : Direction) (entries : List Data) (ports : List Port)
        → (ports_behind direction [] entries ≡ Ok ports) ↔ ArePorts direction entries ports }
    ensures fault { (direction : Direction) (entries : List Data) (fault : MachError)
        → (ports_behind direction [] entries ≡ Err fault) ↔ IsFirstBadEntry direction entries fault }
{}

/// A document gives a machine exactly where each of its parts gives its part of it; and its fault is the first of its
/// parts' faults, in the order in which they are tested.
pub fn document_gives_the_machine_of_its_parts()
    ensures machine { (document : Members) (machine : Machine)
        → (machine_in document ≡ Ok machine) ↔ GivesMachine document machine }
    ensures fault { (document : Members) → result_err (machine_in document) ≡ first_of (part_faults document) }
{}

/// A file that is UTF-8 and a TOML document says what the document says, and any other is no TOML.
pub fn file_says_what_its_document_says()
    ensures document { (bytes : List ℕ) (document : Members) → IsUtf8 bytes → parse_document bytes ≡ Some document
        → machine_of bytes ≡ machine_in document }
    ensures none { (bytes : List ℕ) → (IsUtf8 bytes → parse_document bytes ≡ None) → machine_of bytes ≡ Err NotToml }
{}

/// What a file gives is a machine, and no file's fault is want of memory.
pub fn file_gives_a_machine_or_a_fault()
    ensures machine { (bytes : List ℕ) (machine : Machine) → machine_of bytes ≡ Ok machine → IsMachine machine }
    ensures fault { (bytes : List ℕ) → machine_of bytes ≢ Err NoMemory }
{}

/// A file without a key, and one without a byte, give the standard machine.
pub fn empty_file_gives_the_standard_machine()
    ensures document { machine_in no_members ≡ Ok standard_machine }
    ensures bytes { machine_of [] ≡ Ok standard_machine }
{}
