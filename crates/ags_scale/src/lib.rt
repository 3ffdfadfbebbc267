//! Scale tags (docs/SCALES.md). `judge` says whether the scales that are declared of cells, registers and rows are accepted for a
//! certificate: whether the tags that each case's order makes of its row's tags never mix, and are taken on by a row that covers what
//! it leaves. Where they are, no run in which A and Q carry their scales along ever adds, stores or gives words of unlike scales, and
//! sums, differences and what ALS, LRS and MPY leave stand for what their scales say. It stands on `ags_tags` for scales, on `ags_verdict`
//! for the walk over the cases, on `ags_transfer` for their posts and on `ags_check` for the verdict and the rows that cover a post.
//! Nothing here takes memory.
#![tactic(auto)]

mod answers;
mod changes;
mod judging;
pub mod laws;
mod scaling;
mod tagging;
mod taking;
mod texts;

pub use ags_tags::{RowTag, RowTags, SCALES_LIMIT, ScaleError, ScaleKind, Scales, Tag, read};
pub use answers::{Meeting, Scaled, TagFault};
pub use judging::judge;

// No clause can name a constant, so the number that is handed out is proved here.
const _: () = prove!(SCALES_LIMIT == 4_194_304);
