//! The laws of arguments and what they ask for.

ghost use Rattle.std.specs.Prelude.{◌≡◌, ℕ, List, Some};
ghost use Rattle.ags_command.specs.Command.{Asked, CommandLine, IsAsked, asked_arguments, asked_of, line_arguments, line_of};

/// A command line's arguments ask for it, and no others do.
pub fn arguments_ask_for_one_command()
    ensures form { (line : CommandLine) → line_of (line_arguments line) ≡ Some line }
    ensures only { (arguments : List (List ℕ)) (line : CommandLine) → line_of arguments ≡ Some line → arguments ≡ line_arguments line }
{}

/// So it is of all that can be asked for, a workload's size being from 1 to 400.
pub fn arguments_ask_for_one_thing()
    ensures form { (asked : Asked) → IsAsked asked → asked_of (asked_arguments asked) ≡ Some asked }
    ensures only { (arguments : List (List ℕ)) (asked : Asked) → asked_of arguments ≡ Some asked → IsAsked asked × (arguments ≡ asked_arguments asked) }
{}
