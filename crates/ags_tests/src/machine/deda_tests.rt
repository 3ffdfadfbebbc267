//! Tests of the panel: the worked keys of docs/PANEL.md.

use crate::command_lines::expect_same;
use ags_deda::{BadDigit, Key, Panel};
use std::process::Abort;

/// What is done with a panel, and what it answers.
enum Act {
    /// Keys are pressed in order.
    Press(&'static [Key]),
    /// Digits are shown to it, and it takes each of them.
    Show(&'static [u8]),
    /// A digit is shown to it, which it refuses.
    Refuse(u8),
    /// It displays this.
    Display(&'static [u8; 10]),
    /// It sends these digits, and no further one.
    Send(&'static [u8]),
}

/// A whole entry.
const WHOLE_ENTRY: [Act; 4] = [
    Act::Press(&[
        Key::Clr,
        Key::Digit(0),
        Key::Digit(4),
        Key::Digit(7),
        Key::Plus,
        Key::Digit(0),
        Key::Digit(1),
        Key::Digit(2),
        Key::Digit(3),
        Key::Digit(4),
        Key::Entr,
    ]),
    Act::Display(b"047+01234 "),
    Act::Send(&[0, 4, 7, 0, 0, 1, 2, 3, 4]),
    Act::Send(&[]),
];

/// Keys whose last one is wrong, and CLR after them.
const WRONG_KEY: [Act; 4] = [
    Act::Press(&[Key::Clr, Key::Digit(0), Key::Digit(9), Key::Digit(8)]),
    Act::Display(b"0        E"),
    Act::Press(&[Key::Clr]),
    Act::Display(b"          "),
];

/// A readout: till the machine has answered it, no digit is displayed, and none during HOLD.
const READOUT: [Act; 11] = [
    Act::Press(&[
        Key::Clr,
        Key::Digit(0),
        Key::Digit(4),
        Key::Digit(7),
        Key::ReadOut,
    ]),
    Act::Send(&[0, 4, 7, 15, 15, 15, 15, 15, 15]),
    Act::Show(&[0, 4, 7, 15, 15, 15, 15, 15, 15]),
    Act::Display(b"047?????? "),
    Act::Press(&[Key::Hold]),
    Act::Show(&[0, 4, 7, 1, 0, 0, 0, 0, 9]),
    Act::Display(b"047?????? "),
    Act::Press(&[Key::ReadOut]),
    Act::Send(&[]),
    Act::Show(&[0, 4, 7, 1, 0, 0, 0, 0, 9]),
    Act::Display(b"047-00009 "),
];

/// Great digits, which are refused, and a key that the panel hasn't: it is wrong in its first place.
const GREAT_DIGITS: [Act; 5] = [
    Act::Refuse(16),
    Act::Refuse(255),
    Act::Press(&[Key::Digit(10)]),
    Act::Display(b"         E"),
    Act::Send(&[]),
];

/// Does an act with a panel, and expects its answer.
fn expect_act(rt: &impl Abort, panel: &mut Panel, act: &Act) {
    match act {
        Act::Press(keys) => {
            for key in *keys {
                panel.press(*key);
            }
        }
        Act::Show(digits) => {
            for digit in *digits {
                assert!(rt; panel.shown(*digit).is_ok());
            }
        }
        Act::Refuse(digit) => {
            let digit = *digit;
            expect_same(rt, &panel.shown(digit), &Err(BadDigit { digit }));
        }
        Act::Display(text) => expect_same(rt, &panel.text(), *text),
        Act::Send(digits) => {
            for digit in *digits {
                expect_same(rt, &panel.sent(), &Some(*digit));
            }
            expect_same(rt, &panel.sent(), &None);
        }
    }
}

/// Does these acts with a new panel, and expects its answers.
fn expect_acts(rt: &impl Abort, acts: &[Act]) {
    let mut panel = Panel::new();
    for act in acts {
        expect_act(rt, &mut panel, act);
    }
}

#[test]
fn panels_answer_keys_and_digits(rt: HostRuntime) {
    expect_acts(&rt, &WHOLE_ENTRY);
    expect_acts(&rt, &WRONG_KEY);
    expect_acts(&rt, &READOUT);
    expect_acts(&rt, &GREAT_DIGITS);
}
