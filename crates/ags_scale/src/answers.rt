//! What is answered of scales.

ghost use Rattle.std.specs.Prelude.{◌≡◌};
ghost use Rattle.ags_scale.specs.Telling.{answer_of};

use ags_check::Refusal;
use ags_tags::{RowTag, Tag};
use ags_word::Word;

/// Two tags that meet.
#[derive(Clone, Copy)]
pub struct Meeting {
    /// The row's tag of A or Q.
    pub left: RowTag,
    /// The tag that it should be: that of a cell or of an output register.
    pub right: Tag,
}

/// What fails of a case.
#[derive(Clone, Copy)]
pub enum TagFault {
    /// Its order lets two tags meet that aren't equal.
    Mixes {
        /// The case's word.
        word: Word,
        /// The case's index.
        x: u8,
        /// The case's indicator.
        v: bool,
        /// The tags.
        two: Meeting,
    },
    /// No one row that covers a post takes the tags that its order leaves.
    Loses {
        /// The case's word.
        word: Word,
        /// The case's index.
        x: u8,
        /// The case's indicator.
        v: bool,
        /// The location of the first such post.
        next: u16,
    },
}

/// The answer of the judge.
#[derive(Drop)]
pub enum Scaled {
    /// The scales are accepted.
    Agree {
        /// How many rows the certificate has.
        rows: u32,
        /// How many cases its rows have.
        cases: u64,
    },
    /// The certificate isn't accepted.
    Unsafe(Refusal),
    /// No row that holds the start holds raw tags for A and Q.
    StartMixed,
    /// A case is the first that fails, and two tags meet in it that aren't equal.
    Mixed {
        /// The row's number, from 1.
        row: u32,
        /// The case's word.
        word: Word,
        /// The case's index.
        x: u8,
        /// The case's indicator.
        v: bool,
        /// The row's tag of A or Q.
        left: RowTag,
        /// The tag that it should be.
        right: Tag,
    },
    /// A case is the first that fails, and no one row that covers a post of it takes the tags that it leaves.
    NotHeld {
        /// The row's number, from 1.
        row: u32,
        /// The case's word.
        word: Word,
        /// The case's index.
        x: u8,
        /// The case's indicator.
        v: bool,
        /// The location of the first such post.
        next: u16,
    },
}

/// The answer that tells what fails of a case of the row with a number.
pub(crate) fn answer_of(row: u32, fault: TagFault) -> Scaled
    ensures { result ≡ answer_of row fault }
{
    match fault {
        TagFault::Mixes { word, x, v, two } => Scaled::Mixed {
            row,
            word,
            x,
            v,
            left: two.left,
            right: two.right,
        },
        TagFault::Loses { word, x, v, next } => Scaled::NotHeld {
            row,
            word,
            x,
            v,
            next,
        },
    }
}
