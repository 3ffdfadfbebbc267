//! The texts of the least and of the greatest workload, assembled, read and checked: docs/WORKLOAD.md has how many rows and cases they
//! have.

ghost use Rattle.std.specs.Prelude.{◌≤◌};

use crate::common::expect_same;
use crate::counted_tests::verdict_of;
use ags_asm::{Assembled, assemble};
use ags_cert::read;
use ags_certtype::Cert;
use ags_check::Verdict;
use ags_load::{cert, cert_is_within_its_limit, source, source_is_within_its_limit};
use ags_ports::Machine;
use std::alloc::Global;
use std::process::Abort;

/// The source of a workload, assembled.
fn made_of(rt: &impl Abort, alloc: Global, machine: &Machine, size: u32) -> Assembled
    requires one { 1 ≤ size }
    requires many { size ≤ 400 }
{
    source_is_within_its_limit();
    let text = source(alloc, size).expect(rt, "memory for a source");
    assemble(alloc, &text, &machine.codes)
        .ok()
        .expect(rt, "a source without a fault")
}

/// The certificate of a workload, read.
fn cert_of(rt: &impl Abort, alloc: Global, machine: &Machine, size: u32) -> Cert
    requires one { 1 ≤ size }
    requires many { size ≤ 400 }
{
    cert_is_within_its_limit();
    let text = cert(alloc, size).expect(rt, "memory for a certificate");
    read(alloc, &text, &machine.ports)
        .ok()
        .expect(rt, "a certificate without a fault")
}

/// Expects that a workload's texts are accepted, with so many rows and as many cases.
fn expect_accepted(rt: &impl Abort, alloc: Global, size: u32, wanted: u32)
    requires one { 1 ≤ size }
    requires many { size ≤ 400 }
{
    let machine = Machine::standard();
    let made = made_of(rt, alloc, &machine, size);
    let cert = cert_of(rt, alloc, &machine, size);
    match verdict_of(&machine, &made.image, &cert) {
        Verdict::Certified { rows, cases } => {
            expect_same(rt, &(size, rows, cases), &(size, wanted, u64::from(wanted)));
        }
        Verdict::Refused(_) => panic!(rt; "the certificate of {size} isn't accepted"),
    }
}

#[test]
fn the_least_and_the_greatest_are_accepted(rt: HostRuntime) {
    expect_accepted(&rt, rt.alloc(), 1, 9);
    expect_accepted(&rt, rt.alloc(), 400, 3201);
}
