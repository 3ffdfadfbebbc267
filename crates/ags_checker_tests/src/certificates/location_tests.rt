//! The rows of a certificate by location, and those of them that cover a post.

use crate::certificates::common::{OPEN, Said, certificate, row};
use crate::common::{Held, add, expect_same, value_of};
use ags_certtype::Cert;
use ags_certtype::laws::numbers_are_of_the_rows_at_a_location;
use ags_check::laws::{cover_asks_nothing_of_a_number, rows_have_one_number_of_cases};
use ags_check::{EachServes, Serving, covering_row, start_row};
use ags_domain::{Domain, Value};
use ags_image::Image;
use ags_row::Post;
use std::alloc::Global;
use std::marker::Model;
use std::process::Abort;

/// A certificate with a row at each of some locations, where A is from 0 to the row's number; it starts at 4000 octal.
fn certificate_at(rt: &impl Abort, alloc: Global, locations: &[u16]) -> Cert {
    let mut rows = Vec::new(alloc);
    let mut number: i32 = 0;
    for &location in locations {
        assert!(rt; number < 20_000);
        number += 1;
        let said = Said {
            location,
            a: Held::Range(0, number),
            ..OPEN
        };
        add(rt, &mut rows, row(rt, alloc, &said));
    }
    certificate(rt, alloc, 0o4000, &[], &[], rows).expect(rt, "the parts of a certificate")
}

/// Asserts that the numbers of the rows at a location are those of its positions among some locations.
fn expect_numbers(rt: &impl Abort, cert: &Cert, locations: &[u16], location: u16) {
    assert!(rt; location < 4096);
    let numbers = cert.at_location(location);
    let mut found = 0;
    let mut number: u32 = 0;
    for one in locations {
        assert!(rt; number < 20_000);
        number += 1;
        if *one == location {
            assert!(rt; found < numbers.len() && numbers[found] == number);
            found += 1;
        }
    }
    assert!(rt; found == numbers.len());
}

/// Locations of rows: the first, the last, and three between.
const PLACES: [u16; 5] = [0, 4095, 0o4000, 1, 4094];

/// The locations by five digits to the base five.
fn chosen(digits: u32) -> [u16; 5] {
    let mut locations = [0; 5];
    let mut left = digits;
    for i in 0..5 {
        locations[i] = PLACES[(left % 5) as usize];
        left /= 5;
    }
    locations
}

/// Every order of rows at five locations, and every five rows at some of these; at 2 stands none.
#[test]
fn rows_by_location_in_every_order(rt: HostRuntime) {
    for digits in 0..3125 {
        let locations = chosen(digits);
        let cert = certificate_at(&rt, rt.alloc(), &locations);
        for location in &PLACES {
            expect_numbers(&rt, &cert, &locations, *location);
        }
        expect_numbers(&rt, &cert, &locations, 2);
    }
}

/// So many rows at one location, between rows elsewhere.
#[test]
fn rows_512_at_one_location(rt: HostRuntime) {
    let alloc = rt.alloc();
    let mut locations: Vec<u16> = Vec::new(alloc);
    for _ in 0..512 {
        add(&rt, &mut locations, 0o17);
        add(&rt, &mut locations, 4095);
    }
    let cert = certificate_at(&rt, alloc, &locations);
    expect_numbers(&rt, &cert, &locations, 0o17);
    expect_numbers(&rt, &cert, &locations, 4095);
    expect_numbers(&rt, &cert, &locations, 0);
}

/// What is left where A holds the words from 0 to a greatest value, at a location.
fn post(rt: &impl Abort, next: u16, greatest: i32) -> Post<Value> {
    Post {
        next,
        a: value_of(rt, Held::Range(0, greatest)),
        q: Value::full(),
        x: 0,
        v0: true,
        v1: false,
        stored: None,
        code: None,
        narrowed: None,
        link: None,
    }
}

/// That the number of a row is from one on.
#[derive(Drop)]
struct AtLeast {
    least: u32,
}

impl Model for AtLeast {
    ghost use Rattle.std.specs.Prelude.{ℕ};

    ghost Value = { ℕ };

    ghost view = { λ at. at.least };
}

impl Serving for AtLeast {
    ghost use Rattle.std.specs.Prelude.{◌≤◌};

    ghost serves = { λ least number. least ≤ number };

    fn serves(&self, number: u32) -> bool {
        self.least <= number
    }
}

/// The rows, the location and the greatest value of A, the least number that serves, and the row that covers.
const COVERS: [(u16, i32, u32, Option<u32>); 6] = [
    (0o4000, 1, 0, Some(1)),
    (0o4000, 2, 0, Some(3)),
    (0o4000, 1, 2, Some(3)),
    (0o4000, 4, 0, None),
    (0o4000, 1, 4, None),
    (4095, 1, 0, Some(2)),
];

#[test]
fn covering_rows(rt: HostRuntime) {
    let cert = certificate_at(&rt, rt.alloc(), &[0o4000, 4095, 0o4000, 0]);
    let said = Said {
        location: 0,
        a: Held::Range(0, 1),
        ..OPEN
    };
    let base = row(&rt, rt.alloc(), &said);
    for &(next, greatest, least, wanted) in &COVERS {
        let post = post(&rt, next, greatest);
        assert!(rt; post.next < 4096);
        let found = covering_row(&cert, &base, &post, &AtLeast { least });
        expect_same(
            &rt,
            &(next, greatest, least, found),
            &(next, greatest, least, wanted),
        );
    }
}

#[test]
fn start_rows(rt: HostRuntime) {
    let cert = certificate_at(&rt, rt.alloc(), &[0, 0o4000, 0o4000]);
    let image = Image::new(rt.alloc()).expect(&rt, "memory for an image");
    expect_same(&rt, &start_row(&image, &cert, &EachServes), &Some(2));
    for (least, wanted) in [(3, Some(3)), (4, None)] {
        let found = start_row(&image, &cert, &AtLeast { least });
        expect_same(&rt, &found, &wanted);
    }
}

#[test]
fn laws(_rt: HostRuntime) {
    numbers_are_of_the_rows_at_a_location();
    rows_have_one_number_of_cases();
    cover_asks_nothing_of_a_number();
}
