//! The first words of the erasable cells.

ghost use Rattle.std.specs.Prelude.{◌≡◌, ◌<◌, ◌↔◌, ℕ, IsTrue, IfSome, None, unwrap_or};
ghost use Rattle.ags_domain.specs.Value.{value_meaning};
ghost use Rattle.ags_image.specs.Image.{entry_at};
ghost use Rattle.ags_safe.specs.Accepted.{IsFirstHeld};
ghost use Rattle.ags_certtype.specs.Cert.{certificate_of};
ghost use Rattle.ags_check.specs.Checking.{IsFirstHeldAt, IsFirstOutside};

use ags_certtype::Cert;
use ags_domain::{Domain, Value};
use ags_image::Image;
use ags_word::{ERASABLE, Word};

/// Whether a cell's first word, by the image's entry and what is stated of the start, is in the cell's limit.
fn is_first_held(limit: Value, entry: Option<Word>, stated: Option<Value>) -> bool
    ensures { IsTrue result ↔ IsFirstHeld value_meaning limit entry stated }
{
    match entry {
        Some(word) => limit.holds(word),
        None => match stated {
            Some(_) => true,
            None => limit.holds(Word::ZERO),
        },
    }
}

/// The same of the erasable cell at an address.
fn is_first_held_at(image: &Image, cert: &Cert, address: u16) -> bool
    requires { address < 2048 }
    ensures { IsTrue result ↔ IsFirstHeldAt image.now (certificate_of cert.now) address }
{
    is_first_held(
        cert.limits().cell(address),
        image.get(address),
        cert.init(address),
    )
}

/// The address of the first erasable cell whose first word isn't in its limit, and nothing where each is. It takes no memory.
pub fn first_outside(image: &Image, cert: &Cert) -> Option<u16>
    ensures none { result ≡ None → (address : ℕ) → address < 2048 → IsFirstHeldAt image.now (certificate_of cert.now) address }
    ensures some { IfSome result (IsFirstOutside image.now (certificate_of cert.now)) }
{
    for address in 0..ERASABLE {
        if !is_first_held_at(image, cert, address) {
            return Some(address);
        }
    }
    None
}

/// The first word of the erasable cell at an address, where nothing is stated of the start: the image's word, or 0.
pub(crate) fn first_word(image: &Image, address: u16) -> Word
    requires { address < 2048 }
    ensures { result ≡ unwrap_or (entry_at image.now address) 0 }
{
    image.get(address).unwrap_or(Word::ZERO)
}
