//! The cases of a row as a list, in the order in which they are judged.

ghost use Rattle.std.specs.Prelude.{◌≡◌, ◌+◌, ◌<◌, ◌≤◌, List, [], ◌∷◌, ◌++◌, length, if◌then◌else◌};
ghost use Rattle.ags_row.specs.Flag.{has_flag};
ghost use Rattle.ags_verdict.specs.RowCase.{flagged, indicators, with_index, with_word, cases_in};

use crate::lists::{Cases, OneCase};
use ags_row::Row;
use ags_word::Word;

/// The case with an indicator, where that may stand.
fn push_if(cases: &mut Cases, word: Word, x: u8, v: bool, may: bool)
    requires index { x < 8 }
    requires room { length cases.old < 256 }
    ensures list { cases.new ≡ cases.old ++ with_index word x (if may then v ∷ [] else []) }
    ensures few { length cases.new ≤ length cases.old + 1 }
{
    if may {
        cases.push(OneCase::new(word, x, v));
    }
}

/// The cases with a word and an index.
fn push_index<D: Copy>(cases: &mut Cases, row: &Row<D>, word: Word, x: u8)
    requires index { x < 8 }
    requires room { length cases.old ≤ 254 }
    ensures list { cases.new ≡ cases.old ++ with_index word x (indicators row.now.v) }
    ensures few { length cases.new ≤ length cases.old + 2 }
{
    push_if(cases, word, x, false, row.v()[0]);
    push_if(cases, word, x, true, row.v()[1]);
}

/// The cases with a word and an index, where that may stand.
fn push_index_if<D: Copy>(cases: &mut Cases, row: &Row<D>, word: Word, x: u8, may: bool)
    requires index { x < 8 }
    requires room { length cases.old ≤ 254 }
    ensures list { cases.new ≡ cases.old ++ (if may then with_index word x (indicators row.now.v) else []) }
    ensures few { length cases.new ≤ length cases.old + 2 }
{
    if may {
        push_index(cases, row, word, x);
    }
}

/// Whether an index may stand in a row.
fn has_index<D: Copy>(row: &Row<D>, x: u8) -> bool
    requires { x < 8 }
    ensures flag { result ≡ has_flag row.now.x x }
    ensures flags { length row.now.x ≡ 8 }
{
    row.x()[x as usize]
}

/// The cases with a word.
fn push_word<D: Copy>(cases: &mut Cases, row: &Row<D>, word: Word)
    requires { length cases.old ≤ 240 }
    ensures list { cases.new ≡ cases.old ++ with_word word (flagged 0 row.now.x) (indicators row.now.v) }
    ensures few { length cases.new ≤ length cases.old + 16 }
{
    for x in 0..8 {
        push_index_if(cases, row, word, x, has_index(row, x));
    }
}

/// The cases of a row with these words, in the order in which they are judged.
pub fn cases_of<D: Copy>(row: &Row<D>, words: &[Word]) -> Cases
    requires { length words.now ≤ 16 }
    ensures { result ≡ cases_in row.now words.now }
{
    let mut cases = Cases::new();
    for word in words {
        push_word(&mut cases, row, *word);
    }
    cases
}
