//! Laws of the number of a text: that it is the one that the digits write, how large it is, and what the limit of the
//! digits is to it.

ghost use Rattle.std.specs.Prelude.{◌≡◌, ℕ, ◌<◌, ◌≤◌, ◌^◌, List, length, Option, Some, None, IfSome};
ghost use Rattle.ags_text.specs.Numeral.{IsNumber, Writes, number_of};

/// The number of a text is the one that its digits write, and each that digits write is the number of its text. So an
/// answer that is the written number, wherever there is one, is the number of the text.
pub fn number_is_what_digits_write()
    ensures told { (base most : ℕ) (text : List ℕ) (number : ℕ) → number_of base most text ≡ Some number → IsNumber base most text number }
    ensures written { (base most : ℕ) (text : List ℕ) (number : ℕ) → IsNumber base most text number → number_of base most text ≡ Some number }
    ensures read { (base most : ℕ) (text : List ℕ) (result : Option ℕ) → IfSome result (λ number. IsNumber base most text number)
        → ((number : ℕ) → IsNumber base most text number → result ≡ Some number) → result ≡ number_of base most text }
{}

/// The limit of the digits is of no account to a text within it, a text beyond it has no number, and each number is below
/// that power of the base.
pub fn number_has_so_many_digits()
    ensures short { (base most other : ℕ) (text : List ℕ) → length text ≤ most → length text ≤ other → number_of base most text ≡ number_of base other text }
    ensures long { (base most : ℕ) (text : List ℕ) → most < length text → number_of base most text ≡ None }
    ensures below { (base most : ℕ) (text : List ℕ) (number : ℕ) → 0 < base → IsNumber base most text number → number < base ^ most }
{}

/// Digits of a width write a number, and a number's digits are of a width where they are so many.
pub fn digits_of_a_width_are_a_number()
    ensures number { (base width : ℕ) (text : List ℕ) (number : ℕ) → 0 < width → Writes base width text number → IsNumber base width text number }
    ensures width { (base most width : ℕ) (text : List ℕ) (number : ℕ) → length text ≡ width → IsNumber base most text number → Writes base width text number }
{}
