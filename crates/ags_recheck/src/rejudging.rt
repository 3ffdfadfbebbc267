//! Rows that are judged again.

ghost use Rattle.std.specs.Prelude.{◌≡◌, ◌+◌, ◌<◌, ◌≤◌, ℕ, List, false, length};
ghost use Rattle.ags_domain.specs.Value.{value_meaning};
ghost use Rattle.ags_domain.specs.declared.values.Value.{Value};
ghost use Rattle.ags_row.specs.declared.rows.Row.{Row};
ghost use Rattle.ags_verdict.specs.Counting.{HasCases, HaveCases};
ghost use Rattle.ags_recheck.specs.Bound.{HaveCasesAt};
ghost use Rattle.ags_recheck.specs.Locations.{has_location};
ghost use Rattle.ags_recheck.specs.Kept.{IsItemKept, AreItemsKept, AreOthersKept, IsBeforeEdit};

use crate::items::Item;
use ags_certtype::Cert;
use ags_domain::Value;
use ags_image::Image;
use ags_ports::Machine;
use ags_row::Row;
use ags_steps::Steps;
use std::sync::ledger::Ledger;

/// Each row is judged.
pub(crate) fn judge_all<L: Ledger>(
    machine: &Machine,
    image: &Image,
    cert: &Cert,
    items: &mut [Item],
    steps: &mut Steps<L>,
)
    requires whole { length items.old ≡ length cert.now.rows }
    ensures kept { AreItemsKept machine.now image.now cert.now items.new }
    ensures whole { length items.new ≡ length cert.now.rows }
    ensures steps { (cases : ℕ) → HaveCases value_meaning image.now cert.now.limits cert.now.rows cases → steps.new ≤ steps.old + cases }
{
    let rows = cert.rows();
    for position in 0..rows.len() {
        items[position].judge(machine, image, cert, &rows[position], steps);
    }
}

/// A row is judged again where it was edited, or one of its posts goes to one of two locations.
fn judge_if<L: Ledger>(
    machine: &Machine,
    image: &Image,
    cert: &Cert,
    row: &Row<Value>,
    item: &mut Item,
    edited: bool,
    one: u16,
    other: u16,
    steps: &mut Steps<L>,
)
    requires one { one < 4096 }
    requires other { other < 4096 }
    requires kept { edited ≡ false → has_location item.old.locations one ≡ false → has_location item.old.locations other ≡ false
        → IsItemKept machine.now image.now cert.now row.now item.old }
    ensures kept { IsItemKept machine.now image.now cert.now row.now item.new }
    ensures steps { (cases : ℕ) → HasCases value_meaning image.now cert.now.limits row.now cases → steps.new ≤ steps.old + cases }
    ensures idle { edited ≡ false → has_location item.old.locations one ≡ false → has_location item.old.locations other ≡ false → steps.new ≡ steps.old }
{
    if edited {
        item.judge(machine, image, cert, row, steps);
    } else if item.has_one(one, other) {
        item.judge(machine, image, cert, row, steps);
    }
}

/// After an edit of the row at a position, that row and those with a post at one of two locations are judged again.
pub(crate) fn rejudge<L: Ledger>(
    machine: &Machine,
    image: &Image,
    cert: &Cert,
    items: &mut [Item],
    edited: usize,
    one: u16,
    other: u16,
    steps: &mut Steps<L>,
)
    requires one { one < 4096 }
    requires other { other < 4096 }
    requires whole { length items.old ≡ length cert.now.rows }
    requires others { AreOthersKept machine.now image.now cert.now edited one other items.old }
    ensures kept { AreItemsKept machine.now image.now cert.now items.new }
    ensures whole { length items.new ≡ length cert.now.rows }
    ensures steps { (before : List (Row Value)) (new : Row Value) (own others : ℕ)
        → IsBeforeEdit machine.now image.now cert.now edited one other before new items.old
        → HasCases value_meaning image.now cert.now.limits new own
        → HaveCasesAt machine.now image.now cert.now.limits one other before others → steps.new ≤ steps.old + own + others }
{
    let rows = cert.rows();
    for position in 0..rows.len() {
        judge_if(
            machine,
            image,
            cert,
            &rows[position],
            &mut items[position],
            position == edited,
            one,
            other,
            steps,
        );
    }
}
