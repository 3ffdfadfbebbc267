//! Which rows take tags.

ghost use Rattle.std.specs.Prelude.{◌≡◌, ◌<◌, ◌↔◌, IsTrue, IfSome};
ghost use Rattle.ags_domain.specs.Value.{value_meaning};
ghost use Rattle.ags_safe.specs.Going.{GoWithin};
ghost use Rattle.ags_certtype.specs.Cert.{certificate_of};
ghost use Rattle.ags_tags.specs.declared.tags.Tag.TheVariants.{Raw};
ghost use Rattle.ags_scale.specs.RowChange.{TakesTag, TakesTags, HoldsTag, HoldsRaw};
ghost use Rattle.ags_scale.specs.Tagging.{IsTaken, IsLost, IsFirstLost, AreTaken, IsStartTagged};

use crate::changes::is_same;
use ags_certtype::Cert;
use ags_check::{Serving, covering_row, start_row};
use ags_domain::Value;
use ags_image::Image;
use ags_row::{Post, Row};
use ags_safe::PostPair;
use ags_tags::{RowTag, RowTags, Scales, Tag};
use std::marker::Model;

/// Whether a row's tag takes that of a post.
fn takes_tag(row: RowTag, tag: RowTag) -> bool
    ensures { IsTrue result ↔ TakesTag row tag }
{
    match row {
        RowTag::Any => true,
        RowTag::Known(known) => match tag {
            RowTag::Any => false,
            RowTag::Known(other) => is_same(other, known),
        },
    }
}

/// Whether a row's tags take those of a post.
fn takes_tags(row: RowTags, tags: RowTags) -> bool
    ensures { IsTrue result ↔ TakesTags row tags }
{
    takes_tag(row.a, tags.a) && takes_tag(row.q, tags.q)
}

/// Whether a row's tag holds raw.
fn holds_raw_tag(row: RowTag) -> bool
    ensures { IsTrue result ↔ HoldsTag row Raw }
{
    match row {
        RowTag::Any => true,
        RowTag::Known(Tag::Raw) => true,
        RowTag::Known(Tag::Scale(_)) => false,
    }
}

/// Whether a row's tags hold raw for A and Q.
fn holds_raw(row: RowTags) -> bool
    ensures { IsTrue result ↔ HoldsRaw row }
{
    holds_raw_tag(row.a) && holds_raw_tag(row.q)
}

/// That the row with a number takes the tags of a post.
#[derive(Drop)]
struct Taking<'a> {
    scales: &'a Scales,
    tags: RowTags,
}

impl<'a> Model for Taking<'a> {
    ghost use Rattle.ags_scale.specs.Asking.{Taking};

    ghost Value = { Taking };

    ghost view = { λ t. record { scales = t.scales.now; tags = t.tags } };
}

impl<'a> Serving for Taking<'a> {
    ghost use Rattle.ags_scale.specs.Asking.{is_taking};

    ghost serves = { λ t number. is_taking t number };

    fn serves(&self, number: u32) -> bool {
        takes_tags(self.scales.row(number), self.tags)
    }
}

/// That the row with a number holds raw for A and Q.
#[derive(Drop)]
struct HoldingRaw<'a> {
    scales: &'a Scales,
}

impl<'a> Model for HoldingRaw<'a> {
    ghost use Rattle.ags_tags.specs.Tag.{Scaling};

    ghost Value = { Scaling };

    ghost view = { λ h. h.scales.now };
}

impl<'a> Serving for HoldingRaw<'a> {
    ghost use Rattle.ags_tags.specs.Tag.{tags_of_row};
    ghost use Rattle.ags_scale.specs.RowChange.{HoldsRaw};

    ghost serves = { λ scales number. HoldsRaw (tags_of_row scales number) };

    fn serves(&self, number: u32) -> bool {
        holds_raw(self.scales.row(number))
    }
}

/// Whether some one row holds the start, and raw for A and Q.
pub(crate) fn is_start_tagged(image: &Image, cert: &Cert, scales: &Scales) -> bool
    ensures { IsTrue result ↔ IsStartTagged value_meaning (certificate_of cert.now) scales.now image.now }
{
    let holding = HoldingRaw { scales };
    start_row(image, cert, &holding).is_some()
}

/// Whether some one row covers a post of a base row and takes the tags.
fn is_taken(
    cert: &Cert,
    scales: &Scales,
    tags: RowTags,
    base: &Row<Value>,
    post: &Post<Value>,
) -> bool
    requires { post.now.next < 4096 }
    ensures { IsTrue result ↔ IsTaken value_meaning (certificate_of cert.now) scales.now tags base.now post.now }
{
    let taking = Taking { scales, tags };
    covering_row(cert, base, post, &taking).is_some()
}

/// The location of a post that isn't taken with the tags, where there is a post.
fn lost(
    cert: &Cert,
    scales: &Scales,
    tags: RowTags,
    base: &Row<Value>,
    post: &Option<Post<Value>>,
) -> Option<u16>
    requires { IfSome post.now (λ p. p.next < 4096) }
    ensures taken { result ≡ None → IfSome post.now (IsTaken value_meaning (certificate_of cert.now) scales.now tags base.now) }
    ensures lost { IfSome result (IsLost value_meaning (certificate_of cert.now) scales.now tags base.now post.now) }
{
    match post {
        Some(post) => {
            if is_taken(cert, scales, tags, base, post) {
                None
            } else {
                Some(post.next)
            }
        }
        None => None,
    }
}

/// The location of the first post of two that isn't taken with the tags.
pub(crate) fn first_lost(
    cert: &Cert,
    scales: &Scales,
    tags: RowTags,
    base: &Row<Value>,
    pair: &PostPair<Value>,
) -> Option<u16>
    requires { GoWithin pair.now }
    ensures taken { result ≡ None → AreTaken value_meaning (certificate_of cert.now) scales.now tags base.now pair.now }
    ensures lost { IfSome result (IsFirstLost value_meaning (certificate_of cert.now) scales.now tags base.now pair.now) }
{
    match lost(cert, scales, tags, base, &pair.first) {
        Some(next) => Some(next),
        None => lost(cert, scales, tags, base, &pair.second),
    }
}
