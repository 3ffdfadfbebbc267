//! Lists of edits that are drawn, each edit held against a check from nothing of what stands after it.

ghost use Rattle.std.specs.Prelude.{◌≡◌, ◌<◌};
ghost use Rattle.ags_recheck.specs.Edited.{IsOfMemory};

use crate::common::{image_of, word};
use crate::edits::common::{book_of, cert_read, one_word, printed, range, row_with, told_afresh};
use ags_domain::{Domain, Value, WordSet};
use ags_edits::Edit;
use ags_recheck::Book;
use ags_row::{At, Row};
use ags_steps::Steps;
use std::alloc::Global;
use std::marker::Brand;
use std::process::Abort;
use std::sync::ledger::{Blank, Ledger};

/// Numbers that follow one another without a pattern, the same in each run.
#[derive(Drop)]
struct Numbers {
    last: u64,
}

impl Numbers {
    /// The next one below a bound.
    fn below(&mut self, bound: u64) -> u64
        requires { 0 < bound }
        ensures { result < bound }
    {
        self.last = (self.last % 2_147_483_647) * 48_271 % 2_147_483_647;
        self.last % bound
    }
}

/// The set of no word but 0 and the return word of the program.
fn two_words(rt: &impl Abort) -> Value {
    let set = WordSet::of(&[word(rt, 0), word(rt, 0o404001)]);
    Value::Words(set.expect(rt, "a set of two words"))
}

/// A value.
fn drawn_value(rt: &impl Abort, numbers: &mut Numbers) -> Value {
    match numbers.below(6) {
        0 => one_word(rt, 0),
        1 => one_word(rt, 0o404001),
        2 => two_words(rt),
        3 => range(rt, -5, 5),
        4 => range(rt, 0, 131_071),
        _ => Value::full(),
    }
}

/// The address of a cell that the program uses, or of one that it doesn't.
fn drawn_cell(rt: &impl Abort, numbers: &mut Numbers) -> At<Value>
    ensures { result.address < 2048 }
{
    let address = if numbers.below(3) == 0 { 0o20 } else { 0o17 };
    let value = drawn_value(rt, numbers);
    At { address, value }
}

/// Locations of the program, those of two cells, and one where nothing stands.
const LOCATIONS: [u16; 7] = [0o4000, 0o4001, 0o4002, 0o4003, 0o4004, 0o20, 0o17];

/// A row.
fn drawn_row(rt: &impl Abort, alloc: Global, numbers: &mut Numbers) -> Row<Value> {
    let location = LOCATIONS[numbers.below(7) as usize];
    let a = if numbers.below(3) == 0 {
        drawn_value(rt, numbers)
    } else {
        Value::full()
    };
    let cell = if numbers.below(2) == 0 {
        Some(drawn_cell(rt, numbers))
    } else {
        None
    };
    row_with(rt, alloc, location, a, cell)
}

/// A word: an order of the program or another one, one that goes to a drawn location, or one that is no order.
fn drawn_word(numbers: &mut Numbers) -> u32 {
    match numbers.below(7) {
        0 => 0o724002,
        1 => 0o404000,
        2 => 0o120017,
        3 => 0o400017,
        4 => 0o220020,
        5 => 0o404000 + numbers.below(5) as u32,
        _ => 0o777777,
    }
}

/// An edit.
fn drawn_edit(rt: &impl Abort, alloc: Global, numbers: &mut Numbers) -> Edit
    ensures { IsOfMemory result }
{
    match numbers.below(8) {
        0 => Edit::Limit(drawn_cell(rt, numbers)),
        1 => {
            let number = drawn_word(numbers);
            let location = LOCATIONS[numbers.below(7) as usize];
            assert!(rt; location < 4096);
            Edit::Word {
                location,
                word: word(rt, number),
            }
        }
        _ => Edit::Row {
            row: numbers.below(7) as u32,
            new: drawn_row(rt, alloc, numbers),
        },
    }
}

/// The certificate of the program that leaves a return word in cell 0017 and goes there.
const RETURN_CERT: &[u8] = b"AGSCERT 1
START 4000
ROW 4000 A ANY Q ANY X 0 V 0
ROW 4001 A ANY Q ANY X 0 V 0
ROW 4002 A ANY Q ANY X 0 V 0
ROW 4003 A ANY Q ANY X 0 V 0
AT 0017 WORDS 404001
ROW 0017 A ANY Q ANY X 0 V 0
AT 0017 WORDS 404001
END
";

/// Makes an edit, and asserts that a check from nothing tells the verdict that the book tells; where it is refused, that of before.
fn expect_fresh<L: Ledger>(
    rt: &impl Abort,
    alloc: Global,
    book: &mut Book,
    edit: Edit,
    steps: &mut Steps<L>,
)
    requires { IsOfMemory edit }
{
    let before = printed(rt, alloc, &book.verdict());
    let made = book.apply(edit, steps).is_ok();
    let told = told_afresh(rt, alloc, book, steps);
    assert!(rt; made || told == before);
}

/// Makes lists of edits of the program, with a counter on the ledger of a blank.
fn lists_of_edits<L: Ledger>(rt: &impl Abort, alloc: Global, blank: Blank)
    requires name { blank.name ≡ L.name }
    requires parts { blank.parts ≡ L.parts }
    requires some { 0 < L.parts }
{
    let mut steps = Steps::<L>::new(blank);
    let mut numbers = Numbers { last: 20_261_129 };
    for _ in 0..300 {
        let image = image_of(rt, alloc, 0o4000, &[0o724002, 0o404000, 0o120017, 0o400017]);
        let cert = cert_read(rt, alloc, RETURN_CERT);
        let mut book = book_of(rt, alloc, image, cert, &mut steps);
        for _ in 0..12 {
            let edit = drawn_edit(rt, alloc, &mut numbers);
            expect_fresh(rt, alloc, &mut book, edit, &mut steps);
        }
    }
}

#[test]
fn each_verdict_is_that_of_a_fresh_check(rt: HostRuntime) {
    lists_of_edits::<Brand>(&rt, rt.alloc(), Blank::new(1));
}
