//! What the definitions of orders and words mean, in the machine's own words. Each law is what a function that does
//! nothing ensures, so that it is proved with the crate. Behind each clause is a lemma of `proofs/`; those that the crates
//! above cite are listed at the heads of its files.

ghost use Rattle.std.specs.Prelude.{◌≡◌, ◌≢◌, ℕ, ◌+◌, ◌*◌, ◌/◌, ◌%◌, ◌^◌, ◌<◌, ◌↔◌, Bool, List, All, length, slice_index_or, Some, IfSome, if◌then◌else◌};
ghost use Rattle.ags_isa.specs.declared.orders.Order.{Order};
ghost use Rattle.ags_isa.specs.Order.{order_number, all_orders, order_name, ComesBefore};
ghost use Rattle.ags_isa.specs.Code.{AreCodes, code_of, order_of, standard_codes, standard_digits, unused_digits};
ghost use Rattle.ags_isa.specs.Naming.{order_word, Names};

/// Orders with one number, or with one name, are one order, and the numbers run from 0 to 26.
pub fn orders_differ()
    ensures number { (order other : Order) → order_number order ≡ order_number other → order ≡ other }
    ensures name { (order other : Order) → order_name order ≡ order_name other → order ≡ other }
    ensures below { (order : Order) → order_number order < 27 }
{}

/// The list of all orders has 27 entries, each order at its number, and so no order twice.
pub fn all_orders_stand_at_their_numbers()
    ensures count { length all_orders ≡ 27 }
    ensures order { (order other : Order) → slice_index_or all_orders (order_number order) other ≡ order }
    ensures number { (number : ℕ) (other : Order) → number < 27
        → order_number (slice_index_or all_orders number other) ≡ number }
{}

/// The order of the numbers is the alphabet's: an order's number is below another's exactly where its name comes before
/// the other's.
pub fn numbers_follow_names()
    ensures { (order other : Order) → (order_number order < order_number other)
        ↔ ComesBefore (order_name order) (order_name other) }
{}

/// Each standard code is half the number of the two octal digits that its orders' words begin with, and five pairs of
/// digits begin none.
pub fn standard_codes_are_half_their_digits()
    ensures half { (order : Order) → 2 * code_of standard_codes order ≡ standard_digits order }
    ensures unused { (order : Order) → All (λ digits. standard_digits order ≢ digits) unused_digits }
{}

/// The standard codes are a table, and in each table orders with one code are one order, which is found by that code;
/// what is found by a code has it.
pub fn codes_tell_orders_apart()
    ensures standard { AreCodes standard_codes }
    ensures order { (table : List ℕ) (order other : Order) → AreCodes table
        → code_of table order ≡ code_of table other → order ≡ other }
    ensures below { (table : List ℕ) (order : Order) → AreCodes table → code_of table order < 32 }
    ensures found { (table : List ℕ) (code : ℕ) (order : Order) → AreCodes table → code_of table order ≡ code
        → order_of table code ≡ Some order }
    ensures only { (table : List ℕ) (code : ℕ) → IfSome (order_of table code) (λ order. code_of table order ≡ code) }
{}

/// No word names two orders, two index bits or two addresses.
pub fn word_names_one_order()
    ensures order { (table : List ℕ) (word : ℕ) (order other : Order) (indexed bit : Bool) (address other_address : ℕ)
        → AreCodes table → Names table word order indexed address → Names table word other bit other_address → order ≡ other }
    ensures index { (table : List ℕ) (word : ℕ) (order other : Order) (indexed bit : Bool) (address other_address : ℕ)
        → AreCodes table → Names table word order indexed address → Names table word other bit other_address → indexed ≡ bit }
    ensures address { (table : List ℕ) (word : ℕ) (order other : Order) (indexed bit : Bool) (address other_address : ℕ)
        → AreCodes table → Names table word order indexed address → Names table word other bit other_address → address ≡ other_address }
{}

/// Orders with different parts make different words, and each is a word of the machine.
pub fn orders_make_different_words()
    ensures order { (table : List ℕ) (order other : Order) (indexed bit : Bool) (address other_address : ℕ)
        → AreCodes table → address < 4096 → other_address < 4096
        → order_word table order indexed address ≡ order_word table other bit other_address → order ≡ other }
    ensures index { (table : List ℕ) (order other : Order) (indexed bit : Bool) (address other_address : ℕ)
        → AreCodes table → address < 4096 → other_address < 4096
        → order_word table order indexed address ≡ order_word table other bit other_address → indexed ≡ bit }
    ensures address { (table : List ℕ) (order other : Order) (indexed bit : Bool) (address other_address : ℕ)
        → AreCodes table → address < 4096 → other_address < 4096
        → order_word table order indexed address ≡ order_word table other bit other_address → address ≡ other_address }
    ensures below { (table : List ℕ) (order : Order) (indexed : Bool) (address : ℕ)
        → AreCodes table → address < 4096 → order_word table order indexed address < 2 ^ 18 }
{}

/// A word's first two octal digits are twice the code of the order that it names, and one more where the index bit is
/// set; its other four are the address.
pub fn digits_are_code_index_and_address()
    ensures digits { (table : List ℕ) (word : ℕ) (order : Order) (indexed : Bool) (address : ℕ)
        → Names table word order indexed address
        → word / 2 ^ 12 ≡ 2 * code_of table order + (if indexed then 1 else 0) }
    ensures address { (table : List ℕ) (word : ℕ) (order : Order) (indexed : Bool) (address : ℕ)
        → Names table word order indexed address → word % 2 ^ 12 ≡ address }
{}

/// A word names an order exactly where the word over 2^13 is the order's code; so it names none only where no order has
/// its code.
pub fn code_of_a_word_names_its_order()
    ensures code { (table : List ℕ) (word : ℕ) (order : Order) (indexed : Bool) (address : ℕ)
        → Names table word order indexed address → word / 2 ^ 13 ≡ code_of table order }
    ensures named { (table : List ℕ) (word : ℕ) (order : Order) → word / 2 ^ 13 ≡ code_of table order
        → (indexed : Bool) × Names table word order indexed (word % 2 ^ 12) }
{}
