//! What an order does to a row's tags.

ghost use Rattle.std.specs.Prelude.{◌≡◌, ◌↔◌, IsTrue};
ghost use Rattle.ags_tags.specs.declared.tags.Tag.TheVariants.{Raw};
ghost use Rattle.ags_tags.specs.declared.tags.RowTag.TheVariants.{Known};
ghost use Rattle.ags_scale.specs.Change.{count_of};
ghost use Rattle.ags_scale.specs.RowChange.{row_tags_met, row_tags_after, IsOfEquals, DoesToTags};

use crate::answers::Meeting;
use crate::scaling::{less, more, product, quotient};
use ags_isa::Order;
use ags_tags::{RowTag, RowTags, Scales, Tag};

/// Which tags an order lets meet, at an address y, where e is the address that it acts on.
fn tags_met(scales: &Scales, order: Order, e: u16, y: u16, tags: RowTags) -> Option<Meeting>
    ensures { result ≡ row_tags_met scales.now order e y tags }
{
    match order {
        Order::Sto | Order::Add | Order::Sub | Order::Adz | Order::Suz => Some(Meeting {
            left: tags.a,
            right: scales.cell(e),
        }),
        Order::Stq => Some(Meeting {
            left: tags.q,
            right: scales.cell(e),
        }),
        Order::Out => Some(Meeting {
            left: tags.a,
            right: scales.output(y),
        }),
        _ => None,
    }
}

/// The count of a shift at an address.
fn count_of(y: u16) -> i8
    ensures { result ≡ count_of y }
{
    (y % 64) as i8
}

/// The tags where a new A is known, and Q stays.
fn with_a(tags: RowTags, a: Tag) -> RowTags
    ensures { result ≡ record tags { a = Known a } }
{
    RowTags {
        a: RowTag::Known(a),
        q: tags.q,
    }
}

/// The tags where a new Q is known, and A stays.
fn with_q(tags: RowTags, q: Tag) -> RowTags
    ensures { result ≡ record tags { q = Known q } }
{
    RowTags {
        a: tags.a,
        q: RowTag::Known(q),
    }
}

/// The tags of a new A, where Q is raw.
fn with_raw_q(a: RowTag) -> RowTags
    ensures { result ≡ record { a = a; q = Known Raw } }
{
    RowTags {
        a,
        q: RowTag::Known(Tag::Raw),
    }
}

/// Which tags A and Q have after an order, at an address y, where e is the address that it acts on.
fn tags_after(scales: &Scales, order: Order, e: u16, y: u16, tags: RowTags) -> RowTags
    ensures { result ≡ row_tags_after scales.now order e y tags }
{
    match order {
        Order::Cla | Order::Clz => with_a(tags, scales.cell(e)),
        Order::Inp => with_a(tags, scales.input(y)),
        Order::Ldq => with_q(tags, scales.cell(e)),
        Order::Tsq => with_q(tags, Tag::Raw),
        Order::Lrs => with_raw_q(more(tags.a, count_of(y))),
        Order::Lls => with_raw_q(less(tags.a, count_of(y))),
        Order::Als => RowTags {
            a: less(tags.a, count_of(y)),
            q: tags.q,
        },
        Order::Mpy | Order::Mpr | Order::Mpz => with_raw_q(product(tags.a, scales.cell(e))),
        Order::Dvp => RowTags {
            a: quotient(tags.a, scales.cell(e)),
            q: tags.q,
        },
        _ => tags,
    }
}

/// Whether two tags are one.
pub(crate) fn is_same(one: Tag, other: Tag) -> bool
    ensures { IsTrue result ↔ (one ≡ other) }
{
    match one {
        Tag::Raw => matches!(other, Tag::Raw),
        Tag::Scale(scale) => match other {
            Tag::Raw => false,
            Tag::Scale(more) => scale == more,
        },
    }
}

/// Whether two tags that meet are equal: the row's is known, and is the other one.
fn is_of_equals(two: Meeting) -> bool
    ensures { IsTrue result ↔ IsOfEquals two }
{
    match two.left {
        RowTag::Any => false,
        RowTag::Known(tag) => is_same(tag, two.right),
    }
}

/// What an order makes of tags, at an address y, where e is the address that it acts on; or two that meet in it and aren't equal.
pub(crate) fn changed(
    scales: &Scales,
    order: Order,
    e: u16,
    y: u16,
    tags: RowTags,
) -> Result<RowTags, Meeting>
    ensures { DoesToTags scales.now order e y tags result }
{
    if let Some(two) = tags_met(scales, order, e, y, tags) {
        if !is_of_equals(two) {
            return Err(two);
        }
    }
    Ok(tags_after(scales, order, e, y, tags))
}
