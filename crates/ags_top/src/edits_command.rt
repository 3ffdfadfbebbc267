//! The command `edits`: the verdict of a certificate for a source's words, and what comes of each edit, made one after the other of these
//! words and of the certificate. Cases are judged with a counter of their own, of which no command tells.

ghost use Rattle.std.specs.Prelude.{◌≡◌, ◌<◌, ◌++◌, All, IfOk, OnOk, OnErr, codes};
ghost use Rattle.std.specs.Fmt.{decimal};
ghost use Rattle.std.specs.String.{string_bytes};
ghost use Rattle.ags_edits.specs.Text.{IsLawful};
ghost use Rattle.ags_image.specs.Image.{IsImage};
ghost use Rattle.ags_outside.specs.Count.{HasCause};
ghost use Rattle.ags_outside.specs.Send.{is_write_fault};
ghost use Rattle.ags_outside.specs.Sink.{WroteFront, appended};
ghost use Rattle.ags_plan.specs.Plan.{WorkAt};
ghost use Rattle.ags_plan.specs.Saying.{Says};
ghost use Rattle.ags_ports.specs.Machine.{IsMachine};
ghost use Rattle.ags_program.specs.Program.{program};
ghost use Rattle.ags_program.specs.Text.{edit_line};
ghost use Rattle.ags_program.specs.Views.{IsReadSource, pair_of};
ghost use Rattle.ags_program.specs.Work as work;
ghost use Rattle.ags_recheck.specs.Edited.{IsOfMemory};
ghost use Rattle.ags_recheck.specs.Told.{IsTold};
ghost use Rattle.ags_recheck.specs.ToldText.{told_text};
ghost use Rattle.ags_top.specs.Telling.{Tells, judging_of, status_with, status_in_the_end};

use ags_cert::Cert;
use ags_edits::Edit;
use ags_image::Image;
use ags_outside::{SendError, Sink};
use ags_plan::send_line;
use ags_played::{verdict_line, verdict_status};
use ags_ports::Machine;
use ags_ports::laws::machine_is_made_of_tables;
use ags_program::{ReadPair, Status};
use ags_recheck::{Book, Told};
use ags_steps::Steps;
use std::alloc::{AllocError, Global};
use std::marker::Brand;
use std::sync::ledger::{Blank, Ledger};

/// What comes of an edit, with the verdict of what stands then, where it is made.
fn told_of<L: Ledger>(book: &mut Book, edit: Edit, steps: &mut Steps<L>) -> Told
    requires { IsOfMemory edit }
    ensures { IsTold book.old edit result book.new }
{
    match book.apply(edit, steps) {
        Ok(()) => Told::Made(book.verdict()),
        Err(error) => Told::NotMade(error),
    }
}

/// The line of what comes of the edit of a number, from 1.
fn edit_line(alloc: Global, number: usize, told: &Told) -> Result<String, AllocError>
    ensures { IfOk result (λ line. string_bytes line ≡ codes "EDIT " ++ decimal number ++ codes " " ++ told_text told.now ++ codes "\n") }
{
    format!(in alloc; "EDIT {number} {told}\n")
}

/// Says the line of what comes of the edit of a number, from 1.
fn say_told<K: Sink>(
    alloc: Global,
    number: usize,
    told: &Told,
    out: &mut K,
) -> Result<(), SendError>
    ensures sent { OnOk result (K.told out.new ≡ appended (K.told out.old) (edit_line number told.now)) }
    ensures front { OnErr result (WroteFront (K.told out.old) (K.told out.new) (edit_line number told.now)) }
    ensures faults { HasCause (K.faults out.old) (K.faults out.new) (is_write_fault result) }
{
    send_line(edit_line(alloc, number, told), out)
}

/// The status after a further edit, and nothing where one wasn't made.
fn status_with(status: Option<Status>, told: &Told) -> Option<Status>
    ensures { result ≡ status_with status told.now }
{
    match told {
        Told::Made(verdict) => match status {
            Some(_) => Some(verdict_status(verdict)),
            None => None,
        },
        Told::NotMade(_) => None,
    }
}

/// The status in the end.
fn status_in_the_end(status: Option<Status>) -> Status
    ensures { result ≡ status_in_the_end status }
{
    status.unwrap_or(Status::No)
}

/// Makes edits one after the other, and says a line for each. The status is that of the last verdict, where each is made, and that before
/// them where there is none.
fn tell_each<L: Ledger, K: Sink>(
    alloc: Global,
    book: &mut Book,
    edits: Vec<Edit>,
    before: Status,
    out: &mut K,
    steps: &mut Steps<L>,
) -> Result<Status, SendError>
    requires machine { IsMachine book.old.machine }
    requires image { IsImage book.old.image }
    requires lawful { All IsLawful edits.items }
    ensures tells { Tells book.old edits.items before (K.told out.old) (K.told out.new) result }
    ensures faults { HasCause (K.faults out.old) (K.faults out.new) (is_write_fault result) }
{
    let mut status = Some(before);
    let mut number: usize = 0;
    for edit in edits {
        number += 1;
        let told = told_of(book, edit, steps);
        say_told(alloc, number, &told, out)?;
        status = status_with(status, &told);
    }
    Ok(status_in_the_end(status))
}

/// The machine, the image and the certificate of a pair, of which the rest is let go.
fn judged_parts(pair: ReadPair) -> (Machine, Image, Cert)
    ensures machine { result.0 ≡ pair.machine }
    ensures image { result.1 ≡ pair.source.made.image }
    ensures cert { result.2 ≡ pair.cert }
{
    let (machine, source, cert) = pair.into_parts();
    let made = source.into_made();
    (machine, made.image, cert)
}

/// The book of a pair: each case of its certificate is judged for its source's words.
fn book_of<L: Ledger>(
    alloc: Global,
    pair: ReadPair,
    steps: &mut Steps<L>,
) -> Result<Book, AllocError>
    ensures book { IfOk result (λ book. book ≡ judging_of pair) }
    ensures machine { IsMachine pair.machine }
    ensures image { IsImage pair.source.made.image }
{
    let (machine, image, cert) = judged_parts(pair);
    machine_is_made_of_tables(&machine);
    let _word = image.get(0);
    Book::new(alloc, machine, image, cert, steps)
}

/// Says the verdict, and makes the edits, with a counter on the ledger of a blank.
fn tell_from<L: Ledger, K: Sink>(
    alloc: Global,
    pair: ReadPair,
    edits: Vec<Edit>,
    blank: Blank,
    out: &mut K,
) -> Result<Status, SendError>
    requires name { blank.name ≡ L.name }
    requires parts { blank.parts ≡ L.parts }
    requires some { 0 < L.parts }
    requires source { IsReadSource pair.source }
    requires lawful { All IsLawful edits.items }
    ensures says { Says program (WorkAt (work.JudgePair (pair_of pair) (work.EditsBehind edits.items))) (K.told out.old) (K.told out.new) result }
    ensures faults { HasCause (K.faults out.old) (K.faults out.new) (is_write_fault result) }
{
    let mut steps = Steps::<L>::new(blank);
    let Ok(mut book) = book_of(alloc, pair, &mut steps) else {
        return Err(SendError::NoMemory);
    };
    let verdict = book.verdict();
    send_line(verdict_line(alloc, &verdict), out)?;
    tell_each(
        alloc,
        &mut book,
        edits,
        verdict_status(&verdict),
        out,
        &mut steps,
    )
}

/// Says the verdict of a certificate for a source's words, and after it, whatever it is, what comes of each edit.
pub(crate) fn tell_edits<K: Sink>(
    alloc: Global,
    pair: ReadPair,
    edits: Vec<Edit>,
    out: &mut K,
) -> Result<Status, SendError>
    requires source { IsReadSource pair.source }
    requires lawful { All IsLawful edits.items }
    ensures says { Says program (WorkAt (work.JudgePair (pair_of pair) (work.EditsBehind edits.items))) (K.told out.old) (K.told out.new) result }
    ensures faults { HasCause (K.faults out.old) (K.faults out.new) (is_write_fault result) }
{
    tell_from::<Brand, K>(alloc, pair, edits, Blank::new(1), out)
}
