//! Tags.

use std::fmt;

/// The scale of a word (docs/SCALES.md, Scales).
#[derive(Clone, Copy, PartialEq, Eq)]
pub enum Tag {
    /// It has none.
    Raw,
    /// It has this scale b: it stands for its value times 2^(b - 17).
    Scale(i8),
}

/// What a row says of the scale of A or Q.
#[derive(Clone, Copy, PartialEq, Eq)]
pub enum RowTag {
    /// Nothing: it may have any.
    Any,
    /// It has this tag.
    Known(Tag),
}

/// What a row says of the scales of A and Q.
#[derive(Clone, Copy, PartialEq, Eq)]
pub struct RowTags {
    /// Of A.
    pub a: RowTag,
    /// Of Q.
    pub q: RowTag,
}

/// Prints RAW, or the scale in decimal with a minus before it where it is below 0.
impl fmt::Display for Tag {
    ghost use Rattle.std.specs.Prelude.{Some};
    ghost use Rattle.ags_tags.specs.TagText.{tag_text};

    ghost output = { λ tag. Some (tag_text tag) };

    fn fmt<W: fmt::Write>(&self, f: &mut fmt::Formatter<W>) -> fmt::Result {
        match self {
            Tag::Raw => f.write_str("RAW"),
            Tag::Scale(scale) => fmt::Display::fmt(scale, f),
        }
    }
}

/// Prints ANY, or the tag.
impl fmt::Display for RowTag {
    ghost use Rattle.std.specs.Prelude.{Some};
    ghost use Rattle.ags_tags.specs.TagText.{row_tag_text};

    ghost output = { λ tag. Some (row_tag_text tag) };

    fn fmt<W: fmt::Write>(&self, f: &mut fmt::Formatter<W>) -> fmt::Result {
        match self {
            RowTag::Any => f.write_str("ANY"),
            RowTag::Known(tag) => fmt::Display::fmt(tag, f),
        }
    }
}
