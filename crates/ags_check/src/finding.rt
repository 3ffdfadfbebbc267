//! A row of a certificate, found among those at its location.

ghost use Rattle.std.specs.Prelude.{◌≡◌, ◌<◌, ◌↔◌, ℕ, IsTrue, Some};
ghost use Rattle.ags_domain.specs.declared.values.Value.{Value};
ghost use Rattle.ags_row.specs.declared.rows.Row.{Row};
ghost use Rattle.ags_certtype.specs.Index.{numbers_at};
ghost use Rattle.ags_check.specs.Finding.{IsFound};

use ags_certtype::Cert;
use ags_domain::Value;
use ags_row::Row;

/// What is asked of a row that is sought.
pub(crate) trait RowTest {
    /// What the row with a number has where it passes.
    ghost has: { Self → ℕ → Row Value → Type 0 };

    /// Whether the row with a number passes.
    fn passes(&self, number: u32, row: &Row<Value>) -> bool
        ensures { IsTrue result ↔ has self.now number row.now };
}

/// The number of a row that passes, among those at a location, whose numbers these are.
fn find_numbered<T: RowTest>(
    rows: &[Row<Value>],
    numbers: &[u32],
    location: u16,
    test: &T,
) -> Option<u32>
    requires numbers { numbers.now ≡ numbers_at rows.now location }
    requires there { (number : ℕ) (row : Row Value) → T.has test.now number row → row.location ≡ location }
    ensures { IsFound (T.has test.now) rows.now result }
{
    for number in numbers {
        if test.passes(*number, &rows[*number as usize - 1]) {
            return Some(*number);
        }
    }
    None
}

/// Whether there is a row with a number, and it passes.
fn passes_at<T: RowTest>(rows: &[Row<Value>], number: u32, test: &T) -> bool
    ensures { IsTrue result → IsFound (T.has test.now) rows.now (Some number) }
{
    let after = number as usize;
    if after == 0 || rows.len() < after {
        return false;
    }
    test.passes(number, &rows[after - 1])
}

/// The number of a row that passes, where only a row at a location does, and nothing where none passes.
pub(crate) fn find_row<T: RowTest>(cert: &Cert, location: u16, test: &T) -> Option<u32>
    requires below { location < 4096 }
    requires there { (number : ℕ) (row : Row Value) → T.has test.now number row → row.location ≡ location }
    ensures { IsFound (T.has test.now) cert.now.rows result }
{
    find_numbered(cert.rows(), cert.at_location(location), location, test)
}

/// The same, and the row with a number that is likely to pass is looked at first.
pub(crate) fn find_row_from<T: RowTest>(
    cert: &Cert,
    location: u16,
    test: &T,
    likely: u32,
) -> Option<u32>
    requires below { location < 4096 }
    requires there { (number : ℕ) (row : Row Value) → T.has test.now number row → row.location ≡ location }
    ensures { IsFound (T.has test.now) cert.now.rows result }
{
    if passes_at(cert.rows(), likely, test) {
        return Some(likely);
    }
    find_row(cert, location, test)
}
