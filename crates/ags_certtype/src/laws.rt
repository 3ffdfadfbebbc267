//! What a certificate's rows by location are. Each law is what a function that does nothing ensures, so that it is proved with the
//! crate.

ghost use Rattle.std.specs.Prelude.{◌≡◌, ◌+◌, ◌-◌, ◌<◌, ◌≤◌, ℕ, List, length, slice_index_or};
ghost use Rattle.ags_domain.specs.declared.values.Value.{Value};
ghost use Rattle.ags_row.specs.declared.rows.Row.{Row};
ghost use Rattle.ags_certtype.specs.Index.{StandsAmong, numbers_at};

/// Each of the numbers at a location is that of a row there, each row there has its number among them, and they ascend.
pub fn numbers_are_of_the_rows_at_a_location()
    ensures each { (rows : List (Row Value)) (location i : ℕ) → i < length (numbers_at rows location)
        → let number = slice_index_or (numbers_at rows location) i 0 in
        (1 ≤ number) × (number ≤ length rows) × ((d : Row Value) → (slice_index_or rows (number - 1) d).location ≡ location) }
    ensures all { (rows : List (Row Value)) (location position : ℕ) (d : Row Value) → position < length rows
        → (slice_index_or rows position d).location ≡ location → StandsAmong (numbers_at rows location) (position + 1) }
    ensures ascending { (rows : List (Row Value)) (location i j : ℕ) → i < j → j < length (numbers_at rows location)
        → slice_index_or (numbers_at rows location) i 0 < slice_index_or (numbers_at rows location) j 0 }
{}
