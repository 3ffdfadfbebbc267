//! The forms of values.

ghost use Rattle.std.specs.Prelude.{◌≡◌, IfSome, Some};
ghost use Rattle.ags_certtext.specs.declared.forms.Form.{Form};
ghost use Rattle.ags_certtext.specs.Front.{form_name};

/// What a value's first field says of those after it.
#[derive(Clone, Copy)]
pub(crate) enum Form {
    /// ANY: there are none.
    Any,
    /// RANGE: they are two ends.
    Ends,
    /// WORDS: they are words.
    Listed,
}

/// The form of a name, letter for letter.
pub(crate) fn form_named(text: &[u8]) -> Option<Form>
    ensures found { IfSome result (λ form. form_name form ≡ text.now) }
    ensures only { (form : Form) → form_name form ≡ text.now → result ≡ Some form }
{
    match text {
        b"ANY" => Some(Form::Any),
        b"RANGE" => Some(Form::Ends),
        b"WORDS" => Some(Form::Listed),
        _ => None,
    }
}
