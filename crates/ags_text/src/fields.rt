//! A line cut into its fields, at blanks and tabs (docs/SOURCE.md, Cards; docs/SCRIPT.md).

ghost use Rattle.std.specs.Prelude.{◌≡◌, ◌≤◌, length, not, position};
ghost use Rattle.std.specs.List.{position_or_len, prefix_len, list_all};
ghost use Rattle.ags_text.specs.Field.{is_blank, leading_field, behind_leading_field, behind_blanks, next_field, behind_field};

/// Where the first blank or tab stands.
fn first_blank(text: &[u8]) -> Option<usize>
    ensures { result ≡ position is_blank text.now }
{
    text.iter().position(|byte| matches!(*byte, b' ' | b'\t'))
}

/// Where the first byte stands that is no blank and no tab.
fn first_mark(text: &[u8]) -> Option<usize>
    ensures { result ≡ position (λ b. not (is_blank b)) text.now }
{
    text.iter().position(|byte| !matches!(*byte, b' ' | b'\t'))
}

/// How long the field at the start of a text is.
fn leading_field_len(text: &[u8]) -> usize
    ensures place { result ≡ position_or_len is_blank text.now }
    ensures within { result ≤ length text.now }
{
    first_blank(text).unwrap_or(text.len())
}

/// How long the prefix of a text is that has nothing but blanks.
fn blanks_len(text: &[u8]) -> usize
    ensures place { result ≡ prefix_len is_blank text.now }
    ensures within { result ≤ length text.now }
{
    first_mark(text).unwrap_or(text.len())
}

/// Whether a text has nothing but blanks and tabs, or nothing at all.
pub fn are_blanks(text: &[u8]) -> bool
    ensures { result ≡ list_all is_blank text.now }
{
    text.iter().all(|byte| matches!(*byte, b' ' | b'\t'))
}

/// A text without the blanks at its start.
#[tactic(auto, unfolding(crate::specs::Field::behind_blanks))]
fn skip_blanks(text: &[u8]) -> &[u8]
    ensures { result.now ≡ behind_blanks text.now }
{
    &text[blanks_len(text)..]
}

/// The prefix of a text before its first blank or tab, which may be empty, and what stands after it, from that
/// blank on.
#[tactic(auto, unfolding(crate::specs::Field::leading_field, crate::specs::Field::behind_leading_field))]
pub fn split_leading_field(text: &[u8]) -> (&[u8], &[u8])
    ensures field { result.0.now ≡ leading_field text.now }
    ensures behind { result.1.now ≡ behind_leading_field text.now }
{
    text.split_at(leading_field_len(text))
}

/// The next field of a text, without the blanks before it, and what stands after it. Where no field is left, both
/// are empty.
#[tactic(auto, unfolding(crate::specs::Field::next_field, crate::specs::Field::behind_field))]
pub fn split_field(text: &[u8]) -> (&[u8], &[u8])
    ensures field { result.0.now ≡ next_field text.now }
    ensures behind { result.1.now ≡ behind_field text.now }
{
    split_leading_field(skip_blanks(text))
}
