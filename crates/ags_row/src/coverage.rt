//! What a cell may hold, and whether a row holds all that a post says.

ghost use Rattle.std.specs.Prelude.{◌≡◌, ◌<◌, ◌↔◌, IsTrue, IfSome, Some, All, true};
ghost use Rattle.std.specs.Option.{option_copied};
ghost use Rattle.ags_domain.specs.Domain.{IsWithin};
ghost use Rattle.ags_row.specs.Flag.{has_flag};
ghost use Rattle.ags_row.specs.Cover.{cell_value, post_value, value_if, Covers};

use crate::ats::At;
use crate::cells::value_among_from;
use crate::limits::Limits;
use crate::links::Link;
use crate::posts::Post;
use crate::rows::Row;
use ags_domain::Domain;

/// What an erasable cell may hold in a row: what the row says of it, else its limit.
pub fn cell_of<D: Domain>(row: &Row<D>, limits: &Limits<D>, address: u16) -> D
    requires { address < 2048 }
    ensures { result ≡ cell_value row.now limits.now address }
{
    *cell_from(row, limits, 0, address)
}

/// The same, lent, where the row's cell is likely to stand at a place of its cells.
fn cell_from<'a, D: Domain>(
    row: &'a Row<D>,
    limits: &'a Limits<D>,
    likely: usize,
    address: u16,
) -> &'a D
    requires { address < 2048 }
    ensures { result.now ≡ cell_value row.now limits.now address }
{
    match value_among_from(row.at(), likely, address) {
        Some(value) => value,
        None => limits.cell_at(address),
    }
}

/// What a cell that may be named holds, if it is the one at an address.
fn value_if<D: Domain>(cell: &Option<At<D>>, address: u16) -> Option<&D>
    ensures { option_copied result ≡ value_if cell.now address }
{
    match cell {
        Some(at) => {
            if at.address == address {
                Some(&at.value)
            } else {
                None
            }
        }
        None => None,
    }
}

/// What an erasable cell may hold after a post: what was stored there, else what a test left of it, else the order's own word,
/// else what the row says, where it is likely to stand at a place of the row's cells.
fn post_value<'a, D: Domain>(
    base: &'a Row<D>,
    limits: &'a Limits<D>,
    post: &'a Post<D>,
    likely: usize,
    address: u16,
) -> &'a D
    requires { address < 2048 }
    ensures { result.now ≡ post_value base.now limits.now post.now address }
{
    if let Some(value) = value_if(&post.stored, address) {
        return value;
    }
    if let Some(value) = value_if(&post.narrowed, address) {
        return value;
    }
    if let Some(value) = value_if(&post.code, address) {
        return value;
    }
    cell_from(base, limits, likely, address)
}

/// Whether an index is one of the flags.
fn has_index(flags: &[bool; 8], index: u8) -> bool
    ensures { result ≡ has_flag flags.now index }
{
    index < 8 && flags[index as usize]
}

/// Whether each indicator that may stand after a post may stand in a row.
fn covers_indicator(flags: &[bool; 2], clear: bool, set: bool) -> bool
    ensures clear { IsTrue result → clear ≡ true → has_flag flags.now 0 ≡ true }
    ensures set { IsTrue result → set ≡ true → has_flag flags.now 1 ≡ true }
    ensures all { (clear ≡ true → has_flag flags.now 0 ≡ true) → (set ≡ true → has_flag flags.now 1 ≡ true) → IsTrue result }
{
    (!clear || flags[0]) && (!set || flags[1])
}

/// Whether a cell may hold all that it may hold after a post, where the base row is likely to name it at a place.
fn covers_cell<D: Domain>(
    cell: &At<D>,
    base: &Row<D>,
    limits: &Limits<D>,
    post: &Post<D>,
    likely: usize,
) -> bool
    requires { cell.now.address < 2048 }
    ensures { IsTrue result ↔ IsWithin D.meaning (post_value base.now limits.now post.now cell.now.address) cell.now.value }
{
    post_value(base, limits, post, likely, cell.address).within(&cell.value)
}

/// Whether each of some cells may hold all that it may hold after a post. Rows mostly name the same cells, so that each is likely to
/// stand at one place in both.
fn covers_cells<D: Domain>(
    cells: &[At<D>],
    base: &Row<D>,
    limits: &Limits<D>,
    post: &Post<D>,
) -> bool
    requires { All (λ at. at.address < 2048) cells.now }
    ensures { IsTrue result
        ↔ All (λ at. IsWithin D.meaning (post_value base.now limits.now post.now at.address) at.value) cells.now }
{
    let mut place: usize = 0;
    for cell in cells {
        if !covers_cell(cell, base, limits, post, place) {
            return false;
        }
        place = place.wrapping_add(1);
    }
    true
}

/// Whether a row is one at the location where a post goes, and holds all that the post says of the registers. The index is read at
/// once, and is asked for before the sets.
fn covers_registers<D: Domain>(target: &Row<D>, post: &Post<D>) -> bool
    ensures location { IsTrue result → target.now.location ≡ post.now.next }
    ensures a { IsTrue result → IsWithin D.meaning post.now.a target.now.a }
    ensures q { IsTrue result → IsWithin D.meaning post.now.q target.now.q }
    ensures index { IsTrue result → has_flag target.now.x post.now.x ≡ true }
    ensures all { target.now.location ≡ post.now.next → IsWithin D.meaning post.now.a target.now.a
        → IsWithin D.meaning post.now.q target.now.q → has_flag target.now.x post.now.x ≡ true → IsTrue result }
{
    target.location == post.next
        && has_index(&target.x, post.x)
        && post.a.within(&target.a)
        && post.q.within(&target.q)
}

/// Whether a row has no link, or just the one that stands after a post.
fn covers_link(link: Option<Link>, after: Option<Link>) -> bool
    ensures { IsTrue result ↔ IfSome link (λ link. after ≡ Some link) }
{
    match link {
        Some(link) => match after {
            Some(left) => left.address == link.address && left.offset == link.offset,
            None => false,
        },
        None => true,
    }
}

/// Whether a row holds all that a post of a base row says: its location, A, Q, the index, every indicator that may stand, and
/// each cell that the row names, and its link (docs/CHECKER.md, When a row covers a post).
pub fn covers<D: Domain>(target: &Row<D>, base: &Row<D>, post: &Post<D>, limits: &Limits<D>) -> bool
    ensures { IsTrue result ↔ Covers D.meaning target.now base.now post.now limits.now }
{
    if !covers_registers(target, post) {
        return false;
    }
    if !covers_indicator(&target.v, post.v0, post.v1) {
        return false;
    }
    if !covers_link(target.link(), post.link) {
        return false;
    }
    covers_cells(target.at(), base, limits, post)
}
