//! The order of the kinds of statements.

ghost use Rattle.std.specs.Prelude.{◌≡◌};
ghost use Rattle.ags_certtext.specs.declared.kinds.Kind.TheVariants.{End, Row, Start};
ghost use Rattle.ags_certtext.specs.Kind.{entry_follows, follows, is_kind, is_last, is_second_start, stands_in_order};

use ags_certtext::{Kind, Statement, Table};

/// Whether a kind is the end.
fn is_end(kind: Kind) -> bool
    ensures { result ≡ is_kind End kind }
{
    matches!(kind, Kind::End)
}

/// Whether the last kind, if there is one, was the end.
pub(crate) fn has_ended(last: Option<Kind>) -> bool
    ensures { result ≡ is_last End last }
{
    match last {
        Some(kind) => is_end(kind),
        None => false,
    }
}

/// Whether the last kind, if there is one, was a row.
fn stands_behind_row(last: Option<Kind>) -> bool
    ensures { result ≡ is_last Row last }
{
    matches!(last, Some(Kind::Row))
}

/// Whether the last kind, if there is one, was the start.
fn stands_behind_start(last: Option<Kind>) -> bool
    ensures { result ≡ is_last Start last }
{
    matches!(last, Some(Kind::Start))
}

/// Whether a kind may stand after the last one.
fn follows(last: Option<Kind>, kind: Kind) -> bool
    ensures { result ≡ follows last kind }
{
    match last {
        Some(last) => last.position() <= kind.position() && !is_end(last),
        None => true,
    }
}

/// Whether an entry of a table may stand after the last kind.
fn entry_follows(last: Option<Kind>, table: Table) -> bool
    ensures { result ≡ entry_follows last table }
{
    match table {
        Table::At => stands_behind_row(last),
        _ => follows(last, table.kind()),
    }
}

/// Whether a statement's kind may stand after the last one.
pub(crate) fn stands_in_order(last: Option<Kind>, statement: &Statement) -> bool
    ensures { result ≡ stands_in_order last statement.now }
{
    match statement {
        Statement::Start(_) => last.is_none(),
        Statement::Entry(table, _) => entry_follows(last, *table),
        Statement::May(_) => follows(last, Kind::May),
        Statement::Row(_) => follows(last, Kind::Row),
        Statement::Linked(_) => stands_behind_row(last),
        Statement::End => follows(last, Kind::End),
    }
}

/// Whether a statement is a second START right after the first.
pub(crate) fn is_second_start(last: Option<Kind>, statement: &Statement) -> bool
    ensures { result ≡ is_second_start last statement.now }
{
    match statement {
        Statement::Start(_) => stands_behind_start(last),
        Statement::Entry(_, _) => false,
        Statement::May(_) => false,
        Statement::Row(_) => false,
        Statement::Linked(_) => false,
        Statement::End => false,
    }
}
