//! Whether the cases of a certificate are accepted, as the walk over them asks it.

ghost use Rattle.std.specs.Prelude.{◌≡◌, ◌<◌, ◌+◌, IfOk};
ghost use Rattle.ags_domain.specs.Value.{value_meaning};
ghost use Rattle.ags_safe.specs.Case.{case_of};
ghost use Rattle.ags_verdict.specs.Fault.{IsCaseJudged};
ghost use Rattle.ags_certtype.specs.Cert.{certificate_of};

use crate::answers::RowFault;
use crate::coverage::{LastCovering, first_uncovered_after};
use ags_certtype::Cert;
use ags_domain::Value;
use ags_image::Image;
use ags_ports::Machine;
use ags_row::Row;
use ags_steps::Steps;
use ags_transfer::{PostPair, put_posts};
use ags_verdict::{Judge, OneCase};
use ags_word::Word;
use std::marker::Model;
use std::sync::ledger::Ledger;

/// A machine, an image and a certificate, as the judge that asks of each case whether it is accepted: that it has posts, and each of
/// them is covered by some one row. It keeps which row covered the last posts, to look there first.
#[derive(Drop)]
pub struct Accepting<'a> {
    /// The machine.
    pub machine: &'a Machine,
    /// The image.
    pub image: &'a Image,
    /// The certificate.
    pub cert: &'a Cert,
    last: LastCovering,
}

impl<'a> Model for Accepting<'a> {
    ghost use Rattle.ags_check.specs.Judging.{Judging};

    ghost Value = { Judging };

    ghost view = { λ a. record { machine = a.machine.now; image = a.image.now; cert = a.cert.now } };
}

impl<'a> Accepting<'a> {
    /// The judge of a certificate for an image on a machine.
    pub fn new(machine: &'a Machine, image: &'a Image, cert: &'a Cert) -> Accepting<'a>
        ensures { result ≡ record { machine = machine.now; image = image.now; cert = cert.now } }
    {
        Accepting {
            machine,
            image,
            cert,
            last: LastCovering::new(),
        }
    }
}

/// A case counts once, or fails.
fn judge_case<L: Ledger>(
    accepting: &Accepting<'_>,
    row: &Row<Value>,
    word: Word,
    x: u8,
    v: bool,
    steps: &mut Steps<L>,
) -> Result<u64, RowFault>
    requires { x < 8 }
    ensures judged { IsCaseJudged value_meaning (certificate_of accepting.now.cert)
        (case_of accepting.now.machine accepting.now.image accepting.now.cert.limits row.now word x v) result }
    ensures once { IfOk result (λ count. count ≡ 1) }
    ensures step { steps.new ≡ steps.old + 1 }
{
    let cert = accepting.cert;
    let mut pair = PostPair {
        first: None,
        second: None,
    };
    match put_posts(
        accepting.machine,
        accepting.image,
        cert.limits(),
        row,
        word,
        x,
        v,
        steps,
        &mut pair,
    ) {
        Ok(()) => match first_uncovered_after(cert, row, &pair, &accepting.last) {
            Some(next) => Err(RowFault::NotCovered { word, x, v, next }),
            None => Ok(1),
        },
        Err(stop) => Err(RowFault::Stops { word, stop }),
    }
}

impl<'a, L: Ledger> Judge<Value, L> for Accepting<'a> {
    ghost use Rattle.std.specs.Prelude.{Err};
    ghost use Rattle.ags_domain.specs.Value.{value_meaning};
    ghost use Rattle.ags_verdict.specs.RowCase.{case_in};
    ghost use Rattle.ags_verdict.specs.Fault.{IsCaseJudged};
    ghost use Rattle.ags_verdict.specs.declared.verdicts.RowFault.TheVariants.{CodeUnknown};
    ghost use Rattle.ags_certtype.specs.Cert.{certificate_of};

    type Fault = RowFault;

    ghost judges = { λ a number row c outcome. IsCaseJudged value_meaning (certificate_of a.cert) (case_in a.machine a.image a.cert.limits row c) outcome };

    ghost unknown = { Err CodeUnknown };

    fn code_unknown(&self) -> Result<u64, RowFault> {
        Err(RowFault::CodeUnknown)
    }

    fn case(
        &self,
        number: u32,
        row: &Row<Value>,
        case: OneCase,
        steps: &mut Steps<L>,
    ) -> Result<u64, RowFault> {
        judge_case(
            self,
            row,
            case.word(),
            case.index(),
            case.indicator(),
            steps,
        )
    }
}
