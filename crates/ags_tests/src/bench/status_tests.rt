//! The numbers of the bench's statuses.

use crate::command_lines::expect_same;
use ags_bench::Status;

/// The statuses, each with its number.
const STATUSES: [(Status, u8); 12] = [
    (Status::Done, 0),
    (Status::No, 1),
    (Status::BadSource, 2),
    (Status::BadWords, 3),
    (Status::AbsentFile, 4),
    (Status::ReadFault, 5),
    (Status::WriteFault, 6),
    (Status::BadMachine, 7),
    (Status::BadCert, 8),
    (Status::BadText, 9),
    (Status::LongFile, 10),
    (Status::NoMemory, 11),
];

#[test]
fn numbers_of_statuses(rt: HostRuntime) {
    for status in &STATUSES {
        expect_same(&rt, &(status.0, status.0.number()), status);
    }
}
