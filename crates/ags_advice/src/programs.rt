//! The programs, and the forms of their command lines.

ghost use Rattle.std.specs.Prelude.{◌≡◌};
ghost use Rattle.ags_advice.specs.Forms.{forms_of, name_of};

/// A program whose runs are told of.
#[derive(Clone, Copy)]
pub enum Program {
    /// `ags`.
    Ags,
    /// `agsbench`.
    AgsBench,
}

impl Program {
    /// Its name, with which each line begins that it says to a person.
    pub(crate) fn name(self) -> &'static str
        ensures { result.now ≡ name_of self }
    {
        match self {
            Program::Ags => "ags",
            Program::AgsBench => "agsbench",
        }
    }

    /// The forms of its command line, and what their letters stand for.
    pub(crate) fn forms(self) -> &'static str
        ensures { result.now ≡ forms_of self }
    {
        match self {
            Program::Ags => {
                "the forms of arguments are: assemble S [M], compare S L [M], tape S [M], xref S [M], certify S C [M], run S P [M], guard S P C [M], budget S C T [M], scales S C K [M], edits S C E [M], workload N; S is a source, L a listing, C a certificate, P a script, T a text of times, K one of scales, E one of edits, M a machine file, and N a size from 1 to 400"
            }
            Program::AgsBench => {
                "the words are S C P [M]: S is a source, C a certificate, P a bench script, and M a machine file"
            }
        }
    }
}
