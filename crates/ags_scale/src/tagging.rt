//! What is asked of a case for its tags.

ghost use Rattle.std.specs.Prelude.{◌≡◌, ◌<◌, ◌≤◌, ◌+◌, ℕ, Result, IfOk, Some, None, Ok};
ghost use Rattle.ags_isa.specs.Naming.{IsDecoding};
ghost use Rattle.ags_verdict.specs.RowCase.{case_in};
ghost use Rattle.ags_tags.specs.Tag.{tags_of_row};
ghost use Rattle.ags_scale.specs.Tagging.{AreTagsOfCase};
ghost use Rattle.ags_scale.specs.Asking.{IsAsked};

use crate::answers::TagFault;
use crate::changes::changed;
use crate::taking::first_lost;
use ags_certtype::Cert;
use ags_domain::Value;
use ags_image::Image;
use ags_isa::{Decoded, decode};
use ags_ports::laws::machine_is_made_of_tables;
use ags_ports::{Machine, effective_address};
use ags_row::Row;
use ags_safe::PostPair;
use ags_steps::Steps;
use ags_tags::{RowTags, Scales};
use ags_transfer::put_posts;
use ags_verdict::{Judge, OneCase};
use std::sync::ledger::Ledger;

/// A machine, an image and a certificate with scales, as the judge that asks of each accepted case whether it keeps its tags.
#[derive(Drop)]
pub(crate) struct Tagging<'a> {
    pub(crate) machine: &'a Machine,
    pub(crate) image: &'a Image,
    pub(crate) cert: &'a Cert,
    pub(crate) scales: &'a Scales,
}

/// What comes of an accepted case by its posts, where its order leaves these tags.
fn tagged_by_posts<L: Ledger>(
    tagging: &Tagging<'_>,
    number: u32,
    row: &Row<Value>,
    case: OneCase,
    tags: RowTags,
    steps: &mut Steps<L>,
) -> Result<u64, TagFault>
    requires { AreTagsOfCase tagging.now.scales.now (case_in tagging.now.machine.now tagging.now.image.now tagging.now.cert.now.limits row.now case)
        (tags_of_row tagging.now.scales.now number) (Ok tags) }
    ensures judged { IsAsked tagging.now.machine.now tagging.now.image.now tagging.now.cert.now tagging.now.scales.now number row.now case result }
    ensures once { IfOk result (λ count. count ≡ 1) }
    ensures step { steps.new ≡ steps.old + 1 }
{
    machine_is_made_of_tables(tagging.machine);
    let mut pair = PostPair {
        first: None,
        second: None,
    };
    let word = case.word();
    let x = case.index();
    let v = case.indicator();
    match put_posts(
        tagging.machine,
        tagging.image,
        tagging.cert.limits(),
        row,
        word,
        x,
        v,
        steps,
        &mut pair,
    ) {
        Ok(()) => match first_lost(tagging.cert, tagging.scales, tags, row, &pair) {
            Some(next) => Err(TagFault::Loses { word, x, v, next }),
            None => Ok(1),
        },
        Err(_) => Ok(1),
    }
}

/// What comes of an accepted case whose word is read as an order at an address.
fn tagged_by_order<L: Ledger>(
    tagging: &Tagging<'_>,
    number: u32,
    row: &Row<Value>,
    case: OneCase,
    decoded: Decoded,
    steps: &mut Steps<L>,
) -> Result<u64, TagFault>
    requires address { decoded.address < 4096 }
    requires read { IsDecoding tagging.now.machine.now.codes case.word (Some decoded) }
    ensures judged { IsAsked tagging.now.machine.now tagging.now.image.now tagging.now.cert.now tagging.now.scales.now number row.now case result }
    ensures once { IfOk result (λ count. count ≡ 1) }
    ensures step { steps.new ≤ steps.old + 1 }
{
    let x = case.index();
    let e = effective_address(decoded, x);
    let before = tagging.scales.row(number);
    match changed(tagging.scales, decoded.order, e, decoded.address, before) {
        Ok(tags) => tagged_by_posts(tagging, number, row, case, tags, steps),
        Err(two) => Err(TagFault::Mixes {
            word: case.word(),
            x,
            v: case.indicator(),
            two,
        }),
    }
}

impl<'a, L: Ledger> Judge<Value, L> for Tagging<'a> {
    ghost use Rattle.std.specs.Prelude.{Ok};
    ghost use Rattle.ags_scale.specs.Asking.{IsAsked};

    type Fault = TagFault;

    ghost judges = { λ t number row c outcome. IsAsked t.machine.now t.image.now t.cert.now t.scales.now number row c outcome };

    ghost unknown = { Ok 0 };

    fn code_unknown(&self) -> Result<u64, TagFault> {
        Ok(0)
    }

    fn case(
        &self,
        number: u32,
        row: &Row<Value>,
        case: OneCase,
        steps: &mut Steps<L>,
    ) -> Result<u64, TagFault> {
        match decode(&self.machine.codes, case.word()) {
            Some(decoded) => tagged_by_order(self, number, row, case, decoded, steps),
            None => Ok(1),
        }
    }
}
