//! The numbers of statuses, and the laws of answers.

use crate::command_lines::expect_same;
use ags_command::{arguments_ask_for_one_command, arguments_ask_for_one_thing};
use ags_top::{
    Status, arguments_have_one_answer, certified_lines_begin_with_certified,
    each_command_has_an_answer,
};

#[test]
fn laws_can_be_called() {
    each_command_has_an_answer();
    arguments_have_one_answer();
    arguments_ask_for_one_command();
    arguments_ask_for_one_thing();
    certified_lines_begin_with_certified();
}

/// Each status with its number.
const STATUSES: [(Status, u8); 12] = [
    (Status::Done, 0),
    (Status::No, 1),
    (Status::BadSource, 2),
    (Status::BadWords, 3),
    (Status::AbsentFile, 4),
    (Status::ReadFault, 5),
    (Status::WriteFault, 6),
    (Status::BadMachine, 7),
    (Status::BadCert, 8),
    (Status::BadText, 9),
    (Status::LongFile, 10),
    (Status::NoMemory, 11),
];

#[test]
fn numbers_statuses(rt: HostRuntime) {
    for status in &STATUSES {
        expect_same(&rt, &(status.0, status.0.number()), status);
    }
}
