//! What an order that computes a number leaves, in the words of whole numbers: where it is told not to overflow, the exact
//! result stands where it goes, and it is told to overflow exactly where there is no such result with room.
//! Each law is what a function that does nothing ensures; the lemmas behind are listed at the head of `proofs/ExactLemmas`.

ghost use Rattle.std.specs.Prelude.{◌≡◌, ◌≢◌, ℕ, ℤ, true, false, pos};
ghost use Rattle.ags_word.specs.Word.{val};
ghost use Rattle.ags_isa.specs.declared.orders.Order.{Order};
ghost use Rattle.ags_isa.specs.declared.orders.Order.TheVariants.{Dvp};
ghost use Rattle.ags_ports.specs.declared.events.Event.TheVariants.{Step};
ghost use Rattle.ags_ports.specs.declared.events.Done.{Done};
ghost use Rattle.ags_ports.specs.Machine.{IsMachine};
ghost use Rattle.ags_ports.specs.State.{State, IsState};
ghost use Rattle.ags_ports.specs.Step.{Steps, Reads};
ghost use Rattle.ags_ports.specs.Exact.{computes_number, IsExactResult, IsResultHere, number_left, HasRoom};

use crate::machines::Machine;

/// Where a step runs an order that computes a number and tells no overflow, the exact result of the order stands where it
/// goes: in A, or of MPY, LLS and LRS in the pair. It tells an overflow exactly where there is no exact result with room:
/// where it has no room, and where there is none, as of a division by 0. The other orders never overflow.
pub fn order_without_overflow_is_exact()
    ensures exact { (machine : Machine) (s : State) (order : Order) (reads : Reads machine s order) (report : Done) (after : State)
        → IsMachine machine → IsState machine s → computes_number order ≡ true → Steps machine s Step report after
        → report.overflow ≡ false → IsResultHere machine s order reads (number_left order after) }
    ensures room { (machine : Machine) (s : State) (order : Order) (reads : Reads machine s order) (report : Done) (after : State)
        → IsMachine machine → IsState machine s → Steps machine s Step report after
        → (n : ℤ) → IsResultHere machine s order reads n → HasRoom order n → report.overflow ≡ false }
    ensures no_room { (machine : Machine) (s : State) (order : Order) (reads : Reads machine s order) (report : Done) (after : State)
        → IsMachine machine → IsState machine s → Steps machine s Step report after
        → (n : ℤ) → IsResultHere machine s order reads n → ¬ HasRoom order n → report.overflow ≡ true }
    ensures no_result { (machine : Machine) (s : State) (order : Order) (reads : Reads machine s order) (report : Done) (after : State)
        → IsMachine machine → IsState machine s → computes_number order ≡ true → Steps machine s Step report after
        → ((n : ℤ) → ¬ IsResultHere machine s order reads n) → report.overflow ≡ true }
    ensures others { (machine : Machine) (s : State) (order : Order) (report : Done) (after : State)
        → IsMachine machine → Reads machine s order → computes_number order ≡ false → Steps machine s Step report after
        → report.overflow ≡ false }
{}

/// An order that computes a number has one exact result, but for a division by 0, which has none.
pub fn each_order_has_one_exact_result()
    ensures one { (order : Order) (a q m count : ℕ) (n other : ℤ) → IsExactResult order a q m count n
        → IsExactResult order a q m count other → n ≡ other }
    ensures some { (order : Order) (a q m count : ℕ) → computes_number order ≡ true → order ≢ Dvp
        → (n : ℤ) × IsExactResult order a q m count n }
    ensures quotient { (a q m count : ℕ) → val m ≢ pos 0 → (n : ℤ) × IsExactResult Dvp a q m count n }
    ensures zero { (a q m count : ℕ) (n : ℤ) → val m ≡ pos 0 → ¬ IsExactResult Dvp a q m count n }
{}
