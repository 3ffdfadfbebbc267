//! Scales that change.

ghost use Rattle.std.specs.Prelude.{◌≡◌};
ghost use Rattle.ags_scale.specs.Change.{tag_of};
ghost use Rattle.ags_scale.specs.RowChange.{row_more, row_less, row_product, row_quotient};

use ags_tags::{RowTag, Tag};

/// The tag of a scale: outside -128 to 127 it becomes raw.
fn tag_of(scale: i16) -> Tag
    ensures { result ≡ tag_of scale }
{
    if -128 <= scale && scale <= 127 {
        Tag::Scale(scale as i8)
    } else {
        Tag::Raw
    }
}

/// A row's tag with a scale that is more by a number.
pub(crate) fn more(tag: RowTag, by: i8) -> RowTag
    ensures { result ≡ row_more tag by }
{
    match tag {
        RowTag::Any => RowTag::Any,
        RowTag::Known(Tag::Raw) => RowTag::Known(Tag::Raw),
        RowTag::Known(Tag::Scale(scale)) => {
            RowTag::Known(tag_of(i16::from(scale) + i16::from(by)))
        }
    }
}

/// A row's tag with a scale that is less by a number.
pub(crate) fn less(tag: RowTag, by: i8) -> RowTag
    ensures { result ≡ row_less tag by }
{
    match tag {
        RowTag::Any => RowTag::Any,
        RowTag::Known(Tag::Raw) => RowTag::Known(Tag::Raw),
        RowTag::Known(Tag::Scale(scale)) => {
            RowTag::Known(tag_of(i16::from(scale) - i16::from(by)))
        }
    }
}

/// The row's tag of a product with a word of a tag.
pub(crate) fn product(tag: RowTag, other: Tag) -> RowTag
    ensures { result ≡ row_product tag other }
{
    match other {
        Tag::Raw => RowTag::Known(Tag::Raw),
        Tag::Scale(scale) => more(tag, scale),
    }
}

/// The row's tag of a quotient by a word of a tag.
pub(crate) fn quotient(tag: RowTag, other: Tag) -> RowTag
    ensures { result ≡ row_quotient tag other }
{
    match other {
        Tag::Raw => RowTag::Known(Tag::Raw),
        Tag::Scale(scale) => less(tag, scale),
    }
}
