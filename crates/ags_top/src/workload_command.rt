//! The command `workload`: the counts of a workload whose certificate is certified, or why it isn't.

ghost use Rattle.std.specs.Prelude.{◌≡◌, ℕ, List, Option, IfOk, IfSome, length, map};
ghost use Rattle.std.specs.String.{string_bytes};
ghost use Rattle.ags_asm.specs.Source.{card_words, defined, placed_words};
ghost use Rattle.ags_cert.specs.Cert.{certificate_of};
ghost use Rattle.ags_domain.specs.Value.{value_meaning};
ghost use Rattle.ags_outside.specs.Count.{HasCause};
ghost use Rattle.ags_outside.specs.Send.{is_write_fault};
ghost use Rattle.ags_plan.specs.Plan.{WorkAt};
ghost use Rattle.ags_plan.specs.Saying.{Says};
ghost use Rattle.ags_program.specs.Program.{program};
ghost use Rattle.ags_program.specs.Text.{workload_line};
ghost use Rattle.ags_program.specs.Views.{IsReadSource, pair_of};
ghost use Rattle.ags_program.specs.Work as work;
ghost use Rattle.ags_verdict.specs.Verdict.{IsVerdict};

use ags_asm::Assembled;
use ags_check::Verdict;
use ags_outside::{SendError, Sink};
use ags_places::Placed;
use ags_plan::send_line;
use ags_played::{verdict_line, verdict_status};
use ags_program::{ReadPair, Status};
use std::alloc::{AllocError, Global};

/// How many words a card has.
fn words_of(card: &Placed) -> u16
    ensures { (image : List (Option ℕ)) → result ≡ length (defined image card.now) }
{
    match card.place {
        Some(_) => card.count,
        None => 0,
    }
}

/// How many words these cards have, where the number has room: those of a source are 4096 at most.
fn words_among(cards: &[Placed]) -> Option<u64>
    ensures { IfSome result (λ count. (image : List (Option ℕ)) → count ≡ length (placed_words (map (defined image) cards.now))) }
{
    let mut count = 0u64;
    for card in cards {
        count = count.checked_add(u64::from(words_of(card)))?;
    }
    Some(count)
}

/// How many cards these are.
fn card_count(cards: &[Placed]) -> usize
    ensures { result ≡ length cards.now }
{
    cards.len()
}

/// The line of a workload that is certified.
fn workload_line(
    alloc: Global,
    size: u32,
    made: &Assembled,
    rows: u32,
    cases: u64,
) -> Result<String, AllocError>
    ensures { IfOk result (λ line. string_bytes line ≡ workload_line size (length (card_words made.now)) (length (placed_words (card_words made.now))) rows cases) }
{
    let cards = card_count(&made.cards);
    let Some(words) = words_among(&made.cards) else {
        return Err(AllocError);
    };
    format!(in alloc;
        "WORKLOAD {size} CARDS {cards} WORDS {words} ROWS {rows} CASES {cases} CERTIFIED\n"
    )
}

/// What is said of a workload by the verdict of its certificate.
fn counts_line(
    alloc: Global,
    size: u32,
    made: &Assembled,
    verdict: &Verdict,
) -> Result<String, AllocError>
    ensures { IfOk result (λ line. string_bytes line ≡ work.counts_line size (card_words made.now) verdict.now) }
{
    match verdict {
        Verdict::Certified { rows, cases } => workload_line(alloc, size, made, *rows, *cases),
        Verdict::Refused(_) => verdict_line(alloc, verdict),
    }
}

/// Writes the counts of the workload of a size, whose source and certificate these are, where it is certified; or why it isn't.
pub(crate) fn write_counts<K: Sink>(
    alloc: Global,
    pair: &ReadPair,
    verdict: &Verdict,
    size: u32,
    out: &mut K,
) -> Result<Status, SendError>
    requires source { IsReadSource pair.now.source }
    requires verdict { IsVerdict value_meaning pair.now.machine pair.now.source.made.image (certificate_of pair.now.cert) verdict.now }
    ensures says { Says program (WorkAt (work.JudgePair (pair_of pair.now) (work.CountsInstead size))) (K.told out.old) (K.told out.new) result }
    ensures faults { HasCause (K.faults out.old) (K.faults out.new) (is_write_fault result) }
{
    let line = counts_line(alloc, size, &pair.source.made, verdict);
    send_line(line, out).and(Ok(verdict_status(verdict)))
}
